//! Members of a program by their names, lent by it.
ghost use Rattle.std.specs.Prelude.{◌≡◌, option_map, string_bytes};
ghost use Rattle.vx_ast.specs.Syntax as syntax;
ghost use Rattle.vx_meaning.specs.States as states;
ghost use Rattle.vx_resolved.specs.Resolved.{kind, predicate, function, method};
ghost use Rattle.vx_resolved.specs.Settled.{settled};

use std::rc::Rc;
use vx_ast::ValueType;
use vx_resolved::{Function, Kind, Method, Predicate, Settled};

/// What the first member of a name is.
fn kind_named<'p>(program: &'p Settled, name: &Rc<String>) -> Option<&'p Kind>
    ensures { option_map (λ k. kind k.now) result ≡ syntax.member_named (settled program.now) (string_bytes name.now.value) }
{
    let number = program.number_of(name)?;
    Some(&program.member(number).kind)
}

/// A predicate, where the first member of this name is one.
pub fn predicate_named<'p>(program: &'p Settled, name: &Rc<String>) -> Option<&'p Rc<Predicate>>
    ensures { option_map (λ d. predicate d.now.value) result ≡ syntax.predicate_named (settled program.now) (string_bytes name.now.value) }
{
    match kind_named(program, name) {
        Some(Kind::Field(_)) => None,
        Some(Kind::Predicate(d)) => Some(d),
        Some(Kind::Function(_)) => None,
        Some(Kind::Method(_)) => None,
        None => None,
    }
}

/// A function, where the first member of this name is one.
pub fn function_named<'p>(program: &'p Settled, name: &Rc<String>) -> Option<&'p Rc<Function>>
    ensures { option_map (λ f. function f.now.value) result ≡ syntax.function_named (settled program.now) (string_bytes name.now.value) }
{
    match kind_named(program, name) {
        Some(Kind::Field(_)) => None,
        Some(Kind::Predicate(_)) => None,
        Some(Kind::Function(f)) => Some(f),
        Some(Kind::Method(_)) => None,
        None => None,
    }
}

/// A method, where the first member of this name is one.
pub fn method_named<'p>(program: &'p Settled, name: &Rc<String>) -> Option<&'p Rc<Method>>
    ensures { option_map (λ m. method m.now.value) result ≡ syntax.method_named (settled program.now) (string_bytes name.now.value) }
{
    match kind_named(program, name) {
        Some(Kind::Field(_)) => None,
        Some(Kind::Predicate(_)) => None,
        Some(Kind::Function(_)) => None,
        Some(Kind::Method(m)) => Some(m),
        None => None,
    }
}

/// The type of a field; Int for what is no field.
pub fn field_type(program: &Settled, name: &Rc<String>) -> ValueType
    ensures { result ≡ states.field_type (settled program.now) (string_bytes name.now.value) }
{
    match program.field_type(name) {
        Some(of) => of,
        None => ValueType::Int,
    }
}
