//! Values that were found, the newest first.
ghost use Rattle.std.specs.Prelude.{◌≡◌, ℕ, List, [], ◌∷◌, map, IfSome, IfNone, OnOk};
ghost use Rattle.vx_meaning.specs.Values as meaning;
ghost use Rattle.vx_meaning.specs.States as states;
ghost use Rattle.vx_run.specs.Going.{Going, Supply, gives, ends_with, Running};
ghost use Rattle.vx_run.specs.Views.{value, told};
ghost use Rattle.vx_run.specs.Held.{entries};
ghost use Rattle.vx_run.specs.Configs as config;
ghost use Rattle.vx_run.specs.Configs.{with_values, with_lists, with_takings, with_one, with_two, with_list, with_taking, put_value};
ghost use Rattle.vx_run.specs.ConfigViews.{config_of, newest};
ghost use Rattle.vx_run.specs.Frames.{Follows};

use crate::blame::Blame;
use crate::halt::Halt;
use crate::holdings::Holdings;
use crate::outcome::Whole;
use crate::state::Config;
use crate::values::Value;
use std::alloc::AllocError;

/// The newest value is taken off.
#[tactic(auto, using(crate::proofs::Newest::newest_more))]
fn pop_value(values: &mut Vec<Value>) -> Option<Value>
    ensures some { IfSome result (λ v. newest values.old.items ≡ value v ∷ newest values.new.items) }
    ensures none { IfNone result (newest values.old.items ≡ []) }
{
    values.pop()
}

/// The newest value is taken off.
pub fn take_one(of: &mut Config) -> Option<Value>
    ensures some { IfSome result (λ v. (f : meaning.Value → config.Config → Going ℕ config.Config) → with_one (config_of of.old) f ≡ f (value v) (config_of of.new)) }
    ensures none { IfNone result ((f : meaning.Value → config.Config → Going ℕ config.Config) → with_one (config_of of.old) f ≡ ends_with Running) }
{
    match pop_value(&mut of.values) {
        Some(v) => Some(v),
        None => None,
    }
}

/// The two newest values are taken off; the newest is the second.
pub fn take_two(of: &mut Config) -> Option<(Value, Value)>
    ensures some { IfSome result (λ both. (f : meaning.Value → meaning.Value → config.Config → Going ℕ config.Config) → with_two (config_of of.old) f ≡ f (value both.0) (value both.1) (config_of of.new)) }
    ensures none { IfNone result ((f : meaning.Value → meaning.Value → config.Config → Going ℕ config.Config) → with_two (config_of of.old) f ≡ ends_with Running) }
{
    match take_one(of) {
        None => None,
        Some(w) => match take_one(of) {
            None => None,
            Some(v) => Some((v, w)),
        },
    }
}

/// A value was found.
#[tactic(auto, using(crate::proofs::Newest::newest_more))]
pub fn put_found(of: &mut Config, v: Value) -> Result<(), AllocError>
    ensures { OnOk result (config_of of.new ≡ with_values (value v ∷ newest of.old.values.items) (config_of of.old)) }
{
    of.values.push(v)?;
    Ok(())
}

/// A value was found within something, or the run is over.
pub fn come_to(of: &mut Config, blame: Blame, came: Result<Value, Whole>) -> Result<(), Halt>
    ensures { (l : Supply ℕ) → Follows result (gives (config_of of.new) l) (put_value blame (config_of of.old) (told came) l) }
{
    match came {
        Ok(v) => {
            put_found(of, v)?;
            Ok(())
        }
        Err(end) => Err(Halt::Over(blame.counted(end))),
    }
}

/// The newest list of arguments is taken off; of its values the last is the first.
#[tactic(auto, using(crate::proofs::Newest::newest_list))]
pub fn pop_list(of: &mut Config) -> Option<Vec<Value>>
    ensures some { IfSome result (λ vs. (f : List meaning.Value → config.Config → Going ℕ config.Config) → with_list (config_of of.old) f ≡ f (newest vs.items) (config_of of.new)) }
    ensures none { IfNone result ((f : List meaning.Value → config.Config → Going ℕ config.Config) → with_list (config_of of.old) f ≡ ends_with Running) }
{
    match of.lists.pop() {
        Some(vs) => Some(vs),
        None => None,
    }
}

/// Values in the other order.
#[tactic(auto, using(crate::proofs::Newest::turned_is))]
fn turned(vs: Vec<Value>) -> Vec<Value>
    ensures { map value result.items ≡ newest vs.items }
{
    let mut all = vs;
    all.reverse();
    all
}

/// The newest list of arguments is taken off.
pub fn take_list(of: &mut Config) -> Option<Vec<Value>>
    ensures some { IfSome result (λ vs. (f : List meaning.Value → config.Config → Going ℕ config.Config) → with_list (config_of of.old) f ≡ f (map value vs.items) (config_of of.new)) }
    ensures none { IfNone result ((f : List meaning.Value → config.Config → Going ℕ config.Config) → with_list (config_of of.old) f ≡ ends_with Running) }
{
    match pop_list(of) {
        None => None,
        Some(vs) => Some(turned(vs)),
    }
}

/// A list of arguments was found; of its values the last is the first.
#[tactic(auto, using(crate::proofs::Newest::newest_list))]
pub fn put_list(of: &mut Config, vs: Vec<Value>) -> Result<(), AllocError>
    ensures { OnOk result (config_of of.new ≡ with_lists (newest vs.items ∷ (config_of of.old).lists) (config_of of.old)) }
{
    of.lists.push(vs)?;
    Ok(())
}

/// What remains of the newest taking, or the totals of the newest filling, are taken off.
#[tactic(auto, using(crate::proofs::Newest::newest_taking))]
pub fn take_taking(of: &mut Config) -> Option<Holdings>
    ensures some { IfSome result (λ h. (f : states.Holdings → config.Config → Going ℕ config.Config) → with_taking (config_of of.old) f ≡ f (entries h.entries.value) (config_of of.new)) }
    ensures none { IfNone result ((f : states.Holdings → config.Config → Going ℕ config.Config) → with_taking (config_of of.old) f ≡ ends_with Running) }
{
    match of.takings.pop() {
        Some(h) => Some(h),
        None => None,
    }
}

/// So much remains of a taking, or these are the totals of a filling.
#[tactic(auto, using(crate::proofs::Newest::newest_taking))]
pub fn put_taking(of: &mut Config, h: Holdings) -> Result<(), AllocError>
    ensures { OnOk result (config_of of.new ≡ with_takings (entries h.entries.value ∷ (config_of of.old).takings) (config_of of.old)) }
{
    of.takings.push(h)?;
    Ok(())
}
