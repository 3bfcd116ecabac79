//! Inferences: a conclusion, and the premises from which a rule is to give it.
ghost use Rattle.swreq_param.specs.Tables.{AreDistinct};
ghost use Rattle.swreq_derive.specs.Facts.{IsStatementOver, AreFactsOf, over};

use crate::known::Facts;
use crate::requirements::Statement;
use swreq_param::ParamTable;

/// A statement that a rule is to give from nothing.
#[derive(Drop)]
pub(crate) struct NullaryInference<'a, F: Facts> {
    pub facts: &'a F,
    pub table: &'a ParamTable,
    pub conclusion: Statement,
    ghost distinct: { AreDistinct table.now },
    ghost facts_over: { AreFactsOf table.now (F.meaning facts.now) } by { Prim.hlevel over },
    ghost conclusion_over: { IsStatementOver table.now (F.meaning facts.now)
        conclusion } by { Prim.hlevel over },
}

/// A statement that a rule is to give from one premise.
#[derive(Drop)]
pub(crate) struct UnaryInference<'a, F: Facts> {
    pub facts: &'a F,
    pub table: &'a ParamTable,
    pub premise: Statement,
    pub conclusion: Statement,
    ghost distinct: { AreDistinct table.now },
    ghost facts_over: { AreFactsOf table.now (F.meaning facts.now) } by { Prim.hlevel over },
    ghost premise_over: { IsStatementOver table.now (F.meaning facts.now)
        premise } by { Prim.hlevel over },
    ghost conclusion_over: { IsStatementOver table.now (F.meaning facts.now)
        conclusion } by { Prim.hlevel over },
}

/// A statement that a rule is to give from two premises.
#[derive(Drop)]
pub(crate) struct BinaryInference<'a, F: Facts> {
    pub facts: &'a F,
    pub table: &'a ParamTable,
    pub first: Statement,
    pub second: Statement,
    pub conclusion: Statement,
    ghost distinct: { AreDistinct table.now },
    ghost first_over: { IsStatementOver table.now (F.meaning facts.now)
        first } by { Prim.hlevel over },
    ghost second_over: { IsStatementOver table.now (F.meaning facts.now)
        second } by { Prim.hlevel over },
    ghost conclusion_over: { IsStatementOver table.now (F.meaning facts.now)
        conclusion } by { Prim.hlevel over },
}
