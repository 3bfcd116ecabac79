//! What is read, over the ids of a table.

ghost use Rattle.std.specs.Prelude.{◌≡◌, IfOk};
ghost use Rattle.swreq_print.specs.swreq_derive.{Derivation.TermRequirement.{Equals}, Facts.{requirement_of, statement_of}};
ghost use Rattle.swreq_print.specs.swreq_lowering.ByTable.{HasIdsOf};
ghost use Rattle.swreq_print.specs.swreq_param.{Owned.{as_term}, Tables.{Extends, IsOf, term_at}};
ghost use Rattle.swreq_lines.specs.{LineTexts.{HasStatementIds}, Written.{statement_meant}};

use crate::statements::WrittenStatement;
use std::alloc::AllocError;
use swreq_print::derive::{Requirement, Statement};
use swreq_print::param::{ParamTable, TermId, TypeParam};

/// The id of a type parameter.
fn intern(table: &mut ParamTable, t: &TypeParam) -> Result<TermId, AllocError>
    ensures extends { Extends table.old table.new }
    ensures of { IfOk result (IsOf table.new) }
    ensures stands { IfOk result (λ id. term_at table.new id ≡ as_term t.now) }
{
    let mut id = table.param(t.head)?;
    for step in t.steps.items() {
        id = table.member(id, *step)?;
    }
    Ok(id)
}

/// The ids of two type parameters.
fn intern_both(
    table: &mut ParamTable,
    t: &TypeParam,
    u: &TypeParam,
) -> Result<Requirement, AllocError>
    ensures extends { Extends table.old table.new }
    ensures ids { IfOk result (HasIdsOf table.new) }
    ensures stands { IfOk result
        (λ r. requirement_of table.new r ≡ Equals (as_term t.now) (as_term u.now)) }
{
    let left = intern(table, t)?;
    let right = intern(table, u)?;
    Ok(Requirement::Same { left, right })
}

/// A statement over the ids of the table.
pub(crate) fn intern_statement(
    table: &mut ParamTable,
    statement: &WrittenStatement,
) -> Result<Statement, AllocError>
    ensures extends { Extends table.old table.new }
    ensures ids { IfOk result (HasStatementIds table.new) }
    ensures stands { IfOk result (λ st. statement_of table.new st ≡ statement_meant statement.now) }
{
    match statement {
        WrittenStatement::Valid(t) => {
            let t = intern(table, t)?;
            Ok(Statement::Valid { t })
        }
        WrittenStatement::Conforms(t, p) => {
            let subject = intern(table, t)?;
            let r = Requirement::Conf { subject, proto: *p };
            Ok(Statement::Holds { r })
        }
        WrittenStatement::IsAnyObject(t) => {
            let subject = intern(table, t)?;
            let r = Requirement::Layout { subject };
            Ok(Statement::Holds { r })
        }
        WrittenStatement::Equals(t, u) => {
            let r = intern_both(table, t, u)?;
            Ok(Statement::Holds { r })
        }
    }
}
