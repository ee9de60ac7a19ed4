//! The laws of walks through trees.
#![tactic(auto)]

ghost use Rattle.std.specs.Prelude.{◌≡◌, ◌++◌, List, length, drop, map};
ghost use Rattle.vx_smt_meaning.specs.declared.reply.Reply.{Reply};
ghost use Rattle.vx_rules.specs.Trees.{Tree, Fork, walk};
ghost use Rattle.vx_walks.specs.Walks.{IsOver, Begins, followed};

/// The questions of a walk are the first ones of the walk over more replies.
pub fn questions_grow_by_prefix()
    ensures { (t : Tree) (replies more : List Reply) → Begins (walk t replies).answered (walk t (replies ++ more)).answered }
{}

/// Once a walk has passed or failed, more replies change nothing.
pub fn an_end_is_final()
    ensures { (t : Tree) (replies more : List Reply) → IsOver (walk t replies).ending → walk t (replies ++ more) ≡ walk t replies }
{}

/// Each question takes the next reply.
pub fn replies_are_taken_in_order()
    ensures { (t : Tree) (replies : List Reply) → Begins (map (λ a. a.reply) (walk t replies).answered) replies }
{}

/// The second side of a fork is walked once the first has passed, over the replies that the first has left.
pub fn sides_are_walked_in_order()
    ensures { (a b : Tree) (replies : List Reply) → walk (Fork a b) replies ≡ followed (walk a replies) (walk b (drop (length (walk a replies).answered) replies)) }
{}
