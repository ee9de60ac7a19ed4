//! Where reading a member stops.

ghost use Rattle.std.specs.Prelude.{◌≡◌};
ghost use Rattle.vx_parser.specs.declared.stop.MemberStop.TheVariants.{Stopped};

use vx_expr_parser::Stop;
use vx_tokens::Token;

/// Why reading a member stops: reading stops inside it, a function's body is due and does not begin, or a second measure
/// stands there.
#[derive(Drop)]
pub enum MemberStop<'t> {
    Stopped(Stop<'t>),
    Bodiless(&'t [Token<'t>]),
    MeasuredTwice(&'t [Token<'t>]),
}

impl<'t> From<Stop<'t>> for MemberStop<'t> {
    ghost from_gives = { λ stop e. e ≡ Stopped stop };

    fn from(stop: Stop<'t>) -> MemberStop<'t> {
        MemberStop::Stopped(stop)
    }
}
