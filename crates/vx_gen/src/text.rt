//! The text of so many generated methods.

ghost use Rattle.std.specs.Prelude.{◌≡◌, ◌++◌, ◌<◌, ◌↔◌, ℕ, List, Err, IfOk, OnOk, codes, string_bytes};
ghost use Rattle.std.specs.Fmt.{decimal};
ghost use Rattle.vx_gen.specs.Generated as spec;
ghost use Rattle.vx_gen.specs.declared.fault.GenFault.TheVariants.{TooLarge};

use crate::GenFault;
use std::alloc::{AllocError, Global};
use std::fmt::Write;

const MAX_METHODS: u32 = 2000;

const FIELDS: &str = "field value: Int\nfield next: Ref\nfield left: Ref\nfield right: Ref\n";

const LIST: &str =
    "predicate list(x: Ref) { acc(x.value) && acc(x.next) && (x.next != null ==> list(x.next)) }\n";

const TREE: &str =
    "predicate tree(x: Ref) { acc(x.value) && acc(x.left) && acc(x.right) && (x.left != null ==> tree(x.left)) && (x.right != null ==> tree(x.right)) }\n";

// The fields and the predicates.
fn write_first(out: &mut String) -> Result<(), AllocError>
    ensures { OnOk result (string_bytes out.new ≡ string_bytes out.old ++ spec.first_lines) }
{
    out.push_str(FIELDS)?;
    out.push_str(LIST)?;
    out.push_str(TREE)
}

fn write_list_method(out: &mut String, number: u32) -> Result<(), AllocError>
    ensures { OnOk result (string_bytes out.new ≡ string_bytes out.old ++ spec.list_method number) }
{
    writeln!(
        out,
        "method list{number}(x: Ref, v: Int) requires list(x) ensures list(x) {{ unfold list(x) x.value := v + {number} fold list(x) }}"
    )?;
    Ok(())
}

fn write_account_contract(out: &mut String, number: u32) -> Result<(), AllocError>
    ensures { OnOk result (string_bytes out.new ≡ string_bytes out.old ++ spec.account_contract number) }
{
    write!(
        out,
        "method account{number}(x: Ref, v: Int) requires acc(x.value) && 0 <= v ensures acc(x.value) && x.value == old(x.value) + v + {number}"
    )?;
    Ok(())
}

fn write_account_body(out: &mut String, number: u32) -> Result<(), AllocError>
    ensures { OnOk result (string_bytes out.new ≡ string_bytes out.old ++ spec.account_body number) }
{
    writeln!(out, " {{ x.value := x.value + v + {number} }}")?;
    Ok(())
}

fn write_account_method(out: &mut String, number: u32) -> Result<(), AllocError>
    ensures { OnOk result (string_bytes out.new ≡ string_bytes out.old ++ spec.account_method number) }
{
    write_account_contract(out, number)?;
    write_account_body(out, number)
}

fn write_tree_method(out: &mut String, number: u32) -> Result<(), AllocError>
    ensures { OnOk result (string_bytes out.new ≡ string_bytes out.old ++ spec.tree_method number) }
{
    writeln!(
        out,
        "method tree{number}(x: Ref, v: Int) requires tree(x) ensures tree(x) {{ unfold tree(x) x.value := v + {number} fold tree(x) }}"
    )?;
    Ok(())
}

// The three kinds take turns.
fn write_method(out: &mut String, number: u32) -> Result<(), AllocError>
    ensures { OnOk result (string_bytes out.new ≡ string_bytes out.old ++ spec.method_line number) }
{
    match number % 3 {
        0 => write_list_method(out, number),
        1 => write_account_method(out, number),
        _ => write_tree_method(out, number),
    }
}

fn write_text(alloc: Global, methods: u32) -> Result<String, AllocError>
    ensures { IfOk result (λ text. string_bytes text ≡ spec.generated methods) }
{
    let mut out = String::new(alloc);
    write_first(&mut out)?;
    for number in 0..methods {
        write_method(&mut out, number)?;
    }
    Ok(out)
}

/// The text of four fields, two predicates and so many methods. It is too large exactly above 2000.
///
/// # Errors
/// `TooLarge` where there are more than 2000; `Want` where memory runs out.
pub fn generate(alloc: Global, methods: u32) -> Result<String, GenFault>
    ensures text { IfOk result (λ text. string_bytes text ≡ spec.generated methods) }
    ensures too_many { (result ≡ Err TooLarge) ↔ 2000 < methods }
{
    if methods > MAX_METHODS {
        return Err(GenFault::TooLarge);
    }
    Ok(write_text(alloc, methods)?)
}
