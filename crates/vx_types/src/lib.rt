//! The typing of the settled syntax, and its parts for which the soundness law is stated apart; what the law asks of a program as a whole, and what a
//! member leads to.
#![tactic(auto)]

ghost use Rattle.std.specs.Prelude.{◌≡◌, Some};
ghost use Rattle.vx_ast.specs.Syntax.{Name, Program, Kind, Method, IsMethod, member_named};
ghost use Rattle.vx_types.specs.CallLanguage.{IsCallingMember};
ghost use Rattle.vx_types.specs.FieldLanguage.{IsFieldMethod};
ghost use Rattle.vx_types.specs.Closure.{InClosure};

/// A method with fields and loops, and without calls, leads to no other member.
pub fn field_methods_stand_alone()
    ensures { (p : Program) (x : Name) (m : Method) → member_named p x ≡ Some (IsMethod m) → IsFieldMethod m → (y : Name) → InClosure p x y → y ≡ x }
{}

/// Where all members are fields, and methods with fields, loops and calls, each leads to itself alone: what a callee's contract
/// mentions is no member.
pub fn calling_members_stand_alone()
    ensures { (p : Program) → ((x : Name) (k : Kind) → member_named p x ≡ Some k → IsCallingMember k) → (x y : Name) → InClosure p x y → y ≡ x }
{}
