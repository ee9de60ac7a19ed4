//! Why a question has no reply.

/// Why a talker gives no answer: a fault with its cause, by which the question is lost; or memory ran out.
#[derive(Drop)]
pub enum Stop<F> {
    Fault(F),
    Want,
}
