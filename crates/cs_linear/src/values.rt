//! Which values a free column takes with it as it moves, and the moves as they are carried out.
ghost use Rattle.std.specs.Prelude.{◌≡◌, ◌<◌, length, All, IfOk, IfErr, OnOk};
ghost use Rattle.vx_frac.specs.Fraction.{fraction};
ghost use Rattle.cs_linear.specs.Numbers.{plus, times, IsCause};
ghost use Rattle.cs_linear.specs.Rows.{Homes, IsFree, IsTableau, Ascends, AllAscend};
ghost use Rattle.cs_linear.specs.Values.{AreMoved, IsFollowed, arrived};
ghost use Rattle.cs_linear.specs.Limits.{marked};

use crate::numbers::{Stop, plus, times};
use crate::rows::{Row, factor_of};
use std::alloc::Global;
use vx_frac::Frac;

/// A column, and the value that it is to have.
#[derive(Clone, Copy)]
pub struct Move {
    pub column: u32,
    pub value: Frac,
}

/// A value, and a factor times so much more.
fn raised(value: Frac, factor: Frac, by: Frac) -> Result<Frac, Stop>
    ensures value { IfOk result (λ w. fraction w ≡ plus (fraction value) (times (fraction factor) (fraction by))) }
    ensures cause { IfErr result IsCause }
{
    let step = times(factor, by)?;
    plus(value, step)
}

/// Puts the move of a row's basic column behind the others, where the row has the column that moves.
fn follow(
    moves: &mut Vec<Move>,
    row: &Row,
    column: u32,
    by: Frac,
    values: &[Frac],
) -> Result<(), Stop>
    requires ascends { Ascends 0 row.now.entries.items }
    requires known { row.now.basic < length values.now }
    ensures value { OnOk result (IsFollowed row.now column (fraction by) values.now moves.old.items moves.new.items) }
    ensures cause { IfErr result IsCause }
{
    match factor_of(&row.entries, column) {
        None => Ok(()),
        Some(factor) => {
            let value = raised(values[row.basic as usize], factor, by)?;
            moves.push(Move {
                column: row.basic,
                value,
            })?;
            Ok(())
        }
    }
}

/// The moves of a free column and of all basic columns whose rows have it.
pub fn moves(
    alloc: Global,
    rows: &[Row],
    column: u32,
    by: Frac,
    values: &[Frac],
) -> Result<Vec<Move>, Stop>
    requires ascend { AllAscend rows.now }
    requires known { All (λ r. r.basic < length values.now) rows.now }
    requires column { column < length values.now }
    ensures value { IfOk result (λ ms. (homes : Homes) → IsTableau rows.now homes → IsFree homes column → AreMoved rows.now homes column (fraction by) values.now (arrived ms.items values.now)) }
    ensures within { IfOk result (λ ms. All (λ m. m.column < length values.now) ms.items) }
    ensures cause { IfErr result IsCause }
{
    let mut moves = Vec::new(alloc);
    if by.num() == 0 {
        return Ok(moves);
    }
    let value = plus(values[column as usize], by)?;
    moves.push(Move { column, value })?;
    for row in rows {
        follow(&mut moves, row, column, by, values)?;
    }
    Ok(moves)
}

/// Carries out moves.
pub fn carry_out(values: &mut Vec<Frac>, moves: &[Move])
    requires { All (λ m. m.column < length values.old.items) moves.now }
    ensures { values.new.items ≡ arrived moves.now values.old.items }
{
    for step in moves {
        values[step.column as usize] = step.value;
    }
}

/// Marks the columns of moves.
pub fn mark(marks: &mut Vec<bool>, moves: &[Move])
    requires { All (λ m. m.column < length marks.old.items) moves.now }
    ensures { marks.new.items ≡ marked moves.now marks.old.items }
{
    for step in moves {
        marks[step.column as usize] = true;
    }
}
