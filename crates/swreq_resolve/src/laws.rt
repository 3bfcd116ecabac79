//! What holds of the refusals of names.

ghost use Rattle.std.specs.Prelude.{◌≡◌, ◌⊎◌, ◌↔◌, ℕ, Bool, List, Contains};
ghost use Rattle.swreq_decl.specs.{declared.skeleton.Skeleton.{Skeleton}, declared.skeleton.TypeDecl.{TypeDecl}, Skeletons.{StandsFor}};
ghost use Rattle.swreq_names.specs.{declared.signature.Signature.{Signature}, Inheritance.{TellsInheritance}, Parts.{Scope}, Spaces.{spaces}};
ghost use Rattle.swreq_resolve.specs.{declared.refusal.NameErr.{NameErr}, declared.refusal.Refusal.{Refusal}, Refusals.{refusals}, Refused.{HasType, IsFirstRefused, IsRefused, IsScopeOf}, RefusedTypes.{IsRefusedOn, of_type_on}, Resolving.{HasNames, RefusesSkeleton, RefusesName, Resolve}};

use swreq_decl::Skeleton;
use swreq_lex::laws::tokens_are_slices;

/// A skeleton has names that resolve or one refusal, and not both. That it has one of them is said over a table that tells which
/// protocol inherits which.
pub fn one_answer(text: &[u8], skeleton: &Skeleton)
    ensures never_both { (e : NameErr) → Resolve text.now skeleton.now
        → ¬ (RefusesSkeleton text.now skeleton.now e) }
    ensures some { (inherits : ℕ → ℕ → Bool) → TellsInheritance text.now skeleton.now inherits
        → Resolve text.now skeleton.now
        ⊎ ((e : NameErr) × RefusesSkeleton text.now skeleton.now e) }
    ensures one { (e f : NameErr) → RefusesSkeleton text.now skeleton.now e
        → RefusesSkeleton text.now skeleton.now f → e ≡ f }
{}

/// The list of the refusals of names, in the order in which the code looks at them, has exactly the refused names of a text. That is
/// said over a table that tells which protocol inherits which. So where a text is refused for a name, it is the first of the refused
/// names, and where its names resolve, none is refused.
pub fn refusals_are_the_refused(text: &[u8], skeleton: &Skeleton)
    ensures all { StandsFor text.now skeleton.now → (inherits : ℕ → ℕ → Bool)
        → TellsInheritance text.now skeleton.now inherits
        → (r : Refusal)
        → Contains (refusals text.now inherits skeleton.now) r ↔ IsRefused text.now skeleton.now r }
    ensures first { StandsFor text.now skeleton.now
        → (r : Refusal) → RefusesName text.now skeleton.now r
        → IsFirstRefused text.now skeleton.now r }
    ensures none { StandsFor text.now skeleton.now → HasNames text.now skeleton.now → (r : Refusal)
        → ¬ (IsRefused text.now skeleton.now r) }
{
    tokens_are_slices(text);
}

/// The list of the refusals of one type on a signature, which may be written in another text, has exactly the refused names
/// of that type. What is refused of a type of the text itself, in a signature or in a query on it, is refused of the text.
pub fn refusals_of_types_are_the_refused(text: &[u8], skeleton: &Skeleton)
    ensures all { StandsFor text.now skeleton.now
        → (g : Signature) (written : List ℕ) (t : TypeDecl) (r : Refusal)
        → Contains (of_type_on (spaces text.now skeleton.now) g written t) r
        ↔ IsRefusedOn text.now skeleton.now g written t r }
    ensures of_the_text { (scope : Scope) (g : Signature) (t : TypeDecl)
        → HasType text.now skeleton.now scope t → IsScopeOf text.now skeleton.now g scope
        → (r : Refusal) → IsRefusedOn text.now skeleton.now g text.now t r
        → IsRefused text.now skeleton.now r }
{
    tokens_are_slices(text);
}
