//! Expressions are evaluated: one step of what is still to be done of them, but for applications and what is unfolded.
ghost use Rattle.std.specs.Prelude.{◌≡◌, ℕ, pos, string_bytes, ◌∷◌, [], IfOk, OnOk};
ghost use Rattle.vx_ast.specs.Syntax.{Unfolding};
ghost use Rattle.vx_frac.specs.Fractions.{lowest, over};
ghost use Rattle.vx_meaning.specs.Values as meaning;
ghost use Rattle.vx_meaning.specs.Values.{IntValue, BoolValue, PermValue};
ghost use Rattle.vx_meaning.specs.States.{lookup};
ghost use Rattle.vx_resolved.specs.Resolved.{expr, exprs, connective, operator, division};
ghost use Rattle.vx_run.specs.Going.{Supply, gives, expect, Failed};
ghost use Rattle.vx_run.specs.Widths as widths;
ghost use Rattle.vx_run.specs.Widths.{within_128_bits};
ghost use Rattle.vx_run.specs.Evaluated.{connected};
ghost use Rattle.vx_run.specs.Views.{value, told};
ghost use Rattle.vx_run.specs.Stores.{store};
ghost use Rattle.vx_run.specs.Configs as config;
ghost use Rattle.vx_run.specs.Configs.{Setting, with_lists, with_one, with_two, with_list, put_value};
ghost use Rattle.vx_run.specs.ConfigViews.{config_of, newest};
ghost use Rattle.vx_run.specs.Pending.{act, reading, state_at, side, evaluate, evaluate_all};
ghost use Rattle.vx_run.specs.Frames.{rest, before, Follows};
ghost use Rattle.vx_run.specs.declared.pending.Pending.TheVariants.{Connect, Choose};

use crate::blame::Blame;
use crate::context::{Reading, When, Within};
use crate::finding::{come_to, pop_list, put_found, put_list, take_one, take_two};
use crate::frame::Frame;
use crate::frames::{put_off, put_off_two};
use crate::halt::Halt;
use crate::operators::{divide, negate, operate};
use crate::outcome::Whole;
use crate::pending::Pending;
use crate::state::Config;
use crate::store::{Variable, lookup};
use crate::values::Value;
use std::alloc::{AllocError, Global};
use std::rc::Rc;
use vx_ast::Place;
use vx_frac::Frac;
use vx_resolved::{Connective, Division, Expr, Exprs, Operator};

/// A number, where it fits.
fn literal(n: u128) -> Result<Value, AllocError>
    ensures { IfOk result (λ v. value v ≡ IntValue (pos n)) }
{
    if n > i128::MAX as u128 {
        return Err(AllocError);
    }
    Ok(Value::Int(n as i128))
}

/// A fraction of two numbers, where they fit; over 0 it counts as over 1.
fn part(n: u128, d: u128) -> Result<Value, AllocError>
    ensures { IfOk result (λ v. value v ≡ PermValue (lowest (over n d))) }
{
    if n > i128::MAX as u128 || d > i128::MAX as u128 {
        return Err(AllocError);
    }
    if d == 0 {
        return Ok(Value::Perm(Frac::new(n as i128, 1)));
    }
    Ok(Value::Perm(Frac::new(n as i128, d as i128)))
}

/// The value of a variable.
fn variable(variables: &[Variable], at: Place, x: &Rc<String>) -> Result<Value, Whole>
    ensures { told result ≡ expect (lookup (string_bytes x.now.value) (store variables.now)) (Failed at) }
{
    match lookup(variables, x) {
        Some(v) => Ok(v),
        None => Err(Whole::Failed(at)),
    }
}

/// Puts off an expression, and what is done with its value.
fn put_part<'p>(
    frames: &mut Vec<Frame<'p>>,
    k: Within,
    r: Reading,
    when: When,
    e: &'p Expr,
    then: Pending<'p>,
) -> Result<(), AllocError>
    ensures { OnOk result ((t : Setting) → rest t frames.new.items ≡ before (λ c. put_value k.blame c (evaluate t k.level (reading r) (state_at when c.state) (expr e.now))) (before (act t then.entry) (rest t frames.old.items))) }
{
    put_off_two(
        frames,
        Frame::Evaluate(Pending::Evaluate(k, r, when, e)),
        Frame::Evaluate(then),
    )?;
    Ok(())
}

/// Puts off what is unfolded: its amount first, or where permissions are ignored the expression alone.
fn begin_unfolding<'p>(
    frames: &mut Vec<Frame<'p>>,
    k: Within,
    r: Reading,
    when: When,
    at: Place,
    i: &'p Rc<String>,
    es: &'p Exprs,
    share: &'p Expr,
    e: &'p Expr,
) -> Result<(), AllocError>
    ensures { OnOk result ((t : Setting) → rest t frames.new.items ≡ before (λ c. put_value k.blame c (evaluate t k.level (reading r) (state_at when c.state) (Unfolding at (string_bytes i.now.value) (exprs es.now) (expr share.now) (expr e.now)))) (rest t frames.old.items)) }
{
    match r {
        Reading::Permitted => {
            let then = Pending::Unfold(k, at, when, i, es, e);
            put_part(frames, k, r, when, share, then)?;
            Ok(())
        }
        Reading::Free => {
            put_off(frames, Frame::Evaluate(Pending::Evaluate(k, r, when, e)))?;
            Ok(())
        }
    }
}

/// Evaluates an expression that has no parts to be evaluated, or puts its parts off.
pub fn begin<'p>(
    frames: &mut Vec<Frame<'p>>,
    of: &mut Config,
    k: Within,
    r: Reading,
    when: When,
    e: &'p Expr,
) -> Result<(), Halt>
    ensures { (t : Setting) (l : Supply ℕ) → Follows result (rest t frames.new.items (config_of of.new) l) (before (λ c. put_value k.blame c (evaluate t k.level (reading r) (state_at when c.state) (expr e.now))) (rest t frames.old.items) (config_of of.old) l) }
{
    let b = k.blame;
    match e {
        Expr::Number(_, n) => come_to(of, b, Ok(literal(*n)?)),
        Expr::Truth(_, x) => come_to(of, b, Ok(Value::Bool(*x))),
        Expr::Null(_) => come_to(of, b, Ok(Value::Ref(0))),
        Expr::Part(_, n, d) => come_to(of, b, Ok(part(*n, *d)?)),
        Expr::Variable(at, x) => {
            let found = variable(&of.state.store, *at, x);
            come_to(of, b, found)
        }
        Expr::Not(at, e) => {
            put_part(frames, k, r, when, e, Pending::Negate(b, *at))?;
            Ok(())
        }
        Expr::Operate(at, op, x, y) => {
            put_off(frames, Frame::Evaluate(Pending::Operate(b, *at, *op)))?;
            put_part(frames, k, r, when, x, Pending::Evaluate(k, r, when, y))?;
            Ok(())
        }
        Expr::Divide(at, op, x, y) => {
            put_off(frames, Frame::Evaluate(Pending::Divide(b, *at, *op)))?;
            put_part(frames, k, r, when, x, Pending::Evaluate(k, r, when, y))?;
            Ok(())
        }
        Expr::Connect(at, op, x, y) => {
            let then = Pending::Connect(k, r, *at, *op, when, y);
            put_part(frames, k, r, when, x, then)?;
            Ok(())
        }
        Expr::Choose(at, c, x, y) => {
            let then = Pending::Choose(k, r, *at, when, x, y);
            put_part(frames, k, r, when, c, then)?;
            Ok(())
        }
        Expr::Read(at, e, x) => {
            put_part(frames, k, r, when, e, Pending::Read(b, r, *at, when, x))?;
            Ok(())
        }
        Expr::Old(_, e) => {
            put_off(
                frames,
                Frame::Evaluate(Pending::Evaluate(k, r, When::Before, e)),
            )?;
            Ok(())
        }
        Expr::Apply(at, f, es) => {
            put_off_two(
                frames,
                Frame::Evaluate(Pending::EvaluateAll(k, r, when, es)),
                Frame::Evaluate(Pending::Apply(k, r, *at, when, f)),
            )?;
            Ok(())
        }
        Expr::Unfolding(at, i, es, share, e) => {
            begin_unfolding(frames, k, r, when, *at, i, es, share, e)?;
            Ok(())
        }
    }
}

/// Evaluates a list of expressions, or puts its first and the others off.
pub fn begin_all<'p>(
    alloc: Global,
    frames: &mut Vec<Frame<'p>>,
    of: &mut Config,
    k: Within,
    r: Reading,
    when: When,
    es: &'p Exprs,
) -> Result<(), Halt>
    ensures { (t : Setting) (l : Supply ℕ) → Follows result (rest t frames.new.items (config_of of.new) l) (before (λ c. config.put_list k.blame c (evaluate_all t k.level (reading r) (state_at when c.state) (exprs es.now))) (rest t frames.old.items) (config_of of.old) l) }
{
    match es {
        Exprs::NoMore => {
            put_list(of, Vec::new(alloc))?;
            Ok(())
        }
        Exprs::More(e, es) => {
            put_off(frames, Frame::Evaluate(Pending::Collect))?;
            let then = Pending::EvaluateAll(k, r, when, es);
            put_part(frames, k, r, when, e, then)?;
            Ok(())
        }
    }
}

/// The newest value comes before the newest arguments.
pub fn collect(of: &mut Config) -> Result<(), Halt>
    ensures { (l : Supply ℕ) → Follows result (gives (config_of of.new) l) (with_one (config_of of.old) (λ v d. with_list d (λ vs f. gives (with_lists ((v ∷ vs) ∷ f.lists) f))) l) }
{
    match take_one(of) {
        None => Err(Halt::Over(Whole::Running)),
        Some(v) => match pop_list(of) {
            None => Err(Halt::Over(Whole::Running)),
            Some(vs) => {
                put_longer(of, vs, v)?;
                Ok(())
            }
        },
    }
}

/// A list of arguments was found, and one that comes before them.
fn put_longer(of: &mut Config, vs: Vec<Value>, v: Value) -> Result<(), AllocError>
    ensures { OnOk result (config_of of.new ≡ with_lists ((value v ∷ newest vs.items) ∷ (config_of of.old).lists) (config_of of.old)) }
{
    let mut all = vs;
    all.push(v)?;
    put_list(of, all)?;
    Ok(())
}

/// `!` of the newest value.
pub fn negate_newest(of: &mut Config, b: Blame, at: Place) -> Result<(), Halt>
    ensures { (l : Supply ℕ) → Follows result (gives (config_of of.new) l) (with_one (config_of of.old) (λ v d. put_value b d (expect (meaning.negated v) (Failed at))) l) }
{
    match take_one(of) {
        None => Err(Halt::Over(Whole::Running)),
        Some(v) => come_to(of, b, negate(at, v)),
    }
}

/// An operator on the two newest values.
pub fn operate_newest(of: &mut Config, b: Blame, at: Place, op: Operator) -> Result<(), Halt>
    ensures { (l : Supply ℕ) → Follows result (gives (config_of of.new) l) (with_two (config_of of.old) (λ v w d. put_value b d (widths.operate within_128_bits at (operator op) v w)) l) }
{
    match take_two(of) {
        None => Err(Halt::Over(Whole::Running)),
        Some((v, w)) => come_to(of, b, operate(at, op, v, w)),
    }
}

/// A division of the two newest values.
pub fn divide_newest(of: &mut Config, b: Blame, at: Place, op: Division) -> Result<(), Halt>
    ensures { (l : Supply ℕ) → Follows result (gives (config_of of.new) l) (with_two (config_of of.old) (λ v w d. put_value b d (widths.divide within_128_bits at (division op) v w)) l) }
{
    match take_two(of) {
        None => Err(Halt::Over(Whole::Running)),
        Some((v, w)) => come_to(of, b, divide(at, op, v, w)),
    }
}

/// Is the right part needed after this left part?
fn needs_right(c: Connective, a: bool) -> bool
    ensures { result ≡ meaning.needs_right (connective c) a }
{
    match c {
        Connective::And => a,
        Connective::Or => !a,
        Connective::Implies => a,
    }
}

/// The value where the right part isn't needed.
fn without_right(c: Connective) -> bool
    ensures { result ≡ meaning.without_right (connective c) }
{
    match c {
        Connective::And => false,
        Connective::Or => true,
        Connective::Implies => true,
    }
}

/// Puts off the right part of a connective where it is needed after this left part.
fn connect_truth<'p>(
    frames: &mut Vec<Frame<'p>>,
    of: &mut Config,
    k: Within,
    r: Reading,
    c: Connective,
    v: bool,
    when: When,
    e: &'p Expr,
) -> Result<(), Halt>
    ensures { (t : Setting) (at : Place) (l : Supply ℕ) → Follows result (rest t frames.new.items (config_of of.new) l) (before (λ d. put_value k.blame d (connected at (connective c) (BoolValue v) (evaluate t k.level (reading r) (state_at when d.state) (expr e.now)))) (rest t frames.old.items) (config_of of.old) l) }
{
    if needs_right(c, v) {
        put_off(frames, Frame::Evaluate(Pending::Evaluate(k, r, when, e)))?;
        return Ok(());
    }
    come_to(of, k.blame, Ok(Value::Bool(without_right(c))))
}

/// Puts off the right part of a connective where it is needed after this left part.
fn connect<'p>(
    frames: &mut Vec<Frame<'p>>,
    of: &mut Config,
    k: Within,
    r: Reading,
    at: Place,
    c: Connective,
    v: Value,
    when: When,
    e: &'p Expr,
) -> Result<(), Halt>
    ensures { (t : Setting) (l : Supply ℕ) → Follows result (rest t frames.new.items (config_of of.new) l) (before (λ d. put_value k.blame d (connected at (connective c) (value v) (evaluate t k.level (reading r) (state_at when d.state) (expr e.now)))) (rest t frames.old.items) (config_of of.old) l) }
{
    match v {
        Value::Bool(b) => connect_truth(frames, of, k, r, c, b, when, e),
        Value::Int(_) | Value::Ref(_) | Value::Perm(_) => {
            Err(Halt::Over(k.blame.counted(Whole::Failed(at))))
        }
    }
}

/// Puts off one of two by a condition.
fn choose<'p>(
    frames: &mut Vec<Frame<'p>>,
    k: Within,
    r: Reading,
    at: Place,
    v: Value,
    when: When,
    x: &'p Expr,
    y: &'p Expr,
) -> Result<(), Halt>
    ensures { (t : Setting) (c : config.Config) (l : Supply ℕ) → Follows result (rest t frames.new.items c l) (before (λ d. put_value k.blame d (side at (value v) (evaluate t k.level (reading r) (state_at when d.state) (expr x.now)) (evaluate t k.level (reading r) (state_at when d.state) (expr y.now)))) (rest t frames.old.items) c l) }
{
    match v {
        Value::Bool(true) => {
            put_off(frames, Frame::Evaluate(Pending::Evaluate(k, r, when, x)))?;
            Ok(())
        }
        Value::Bool(false) => {
            put_off(frames, Frame::Evaluate(Pending::Evaluate(k, r, when, y)))?;
            Ok(())
        }
        Value::Int(_) | Value::Ref(_) | Value::Perm(_) => {
            Err(Halt::Over(k.blame.counted(Whole::Failed(at))))
        }
    }
}

/// The right part of a connective, behind the newest value.
pub fn connect_newest<'p>(
    frames: &mut Vec<Frame<'p>>,
    of: &mut Config,
    k: Within,
    r: Reading,
    at: Place,
    c: Connective,
    when: When,
    e: &'p Expr,
) -> Result<(), Halt>
    ensures { (t : Setting) (l : Supply ℕ) → Follows result (rest t frames.new.items (config_of of.new) l) (before (act t (Connect k r at c when e.entry)) (rest t frames.old.items) (config_of of.old) l) }
{
    match take_one(of) {
        None => Err(Halt::Over(Whole::Running)),
        Some(v) => connect(frames, of, k, r, at, c, v, when, e),
    }
}

/// One of two, by the newest value.
pub fn choose_newest<'p>(
    frames: &mut Vec<Frame<'p>>,
    of: &mut Config,
    k: Within,
    r: Reading,
    at: Place,
    when: When,
    x: &'p Expr,
    y: &'p Expr,
) -> Result<(), Halt>
    ensures { (t : Setting) (l : Supply ℕ) → Follows result (rest t frames.new.items (config_of of.new) l) (before (act t (Choose k r at when x.entry y.entry)) (rest t frames.old.items) (config_of of.old) l) }
{
    match take_one(of) {
        None => Err(Halt::Over(Whole::Running)),
        Some(v) => choose(frames, k, r, at, v, when, x, y),
    }
}
