//! The first probe of a location or an instance: its candidates are those of the heap as it is.

ghost use Rattle.std.specs.Prelude.{◌≡◌, [], ◌∷◌, None, IfOk, string_bytes};
ghost use Rattle.vx_heap.specs.Views.{candidates_of, heap as heap_of, key, terms_of, held_term};
ghost use Rattle.vx_probes.specs.Firsts.{read_first, take_first};
ghost use Rattle.vx_resolved.specs.Settled.{settled};
ghost use Rattle.vx_rules.specs.Chunks as chunks;
ghost use Rattle.vx_rules.specs.Chunks.{field_key};
ghost use Rattle.vx_rules.specs.Codes.{code as code_of};
ghost use Rattle.vx_rules.specs.Members.{rules};
ghost use Rattle.vx_rules.specs.Rules as rule;
ghost use Rattle.vx_rules.specs.Trees.{PermissionCode};
ghost use Rattle.vx_stack.specs.Stack.{giving, going, take_instance as taking_instance, take_location as taking_location, with_taken, Stepped};
ghost use Rattle.vx_stack.specs.Values.{values};
ghost use Rattle.vx_states.specs.SymStates.{optional_term, state as state_of};
ghost use Rattle.vx_terms.specs.Views.{sort as sort_of};

use crate::probes::{read_from, take_from};
use std::alloc::{AllocError, Global};
use std::rc::Rc;
use vx_ast::Place;
use vx_heap::{Resource, SymHeap};
use vx_resolved::Settled;
use vx_rules::Code;
use vx_stack::{Conts, Hole, Instance, Location, Move, Next, Search, Taken, field_sort};
use vx_states::SymState;
use vx_terms::{Sort, Term};

/// What is looked for in a heap: some amount of a location or an instance, or this one.
fn search(
    alloc: Global,
    place: Place,
    code: Code,
    resource: &Resource,
    arguments: Vec<Rc<Term>>,
    amount: Option<Rc<Term>>,
    heap: &SymHeap,
) -> Result<Rc<Search>, AllocError>
    ensures place { IfOk result (λ s. s.value.place ≡ place) }
    ensures code { IfOk result (λ s. s.value.code ≡ code) }
    ensures arguments { IfOk result (λ s. terms_of s.value.arguments.items ≡ terms_of arguments.items) }
    ensures amount { IfOk result (λ s. optional_term s.value.amount ≡ optional_term amount) }
    ensures candidates { IfOk result (λ s. candidates_of s.value.candidates.items ≡ chunks.candidates (key resource.now arguments.items) (heap_of heap.now)) }
{
    let candidates = heap.candidates(alloc, resource, &arguments)?;
    Ok(Rc::new(
        alloc,
        Search {
            place,
            code,
            arguments,
            amount,
            candidates,
        },
    )?)
}

/// What is looked for at a location: some amount.
fn search_field(
    alloc: Global,
    place: Place,
    field: &Rc<String>,
    receiver: Rc<Term>,
    heap: &SymHeap,
) -> Result<Rc<Search>, AllocError>
    ensures place { IfOk result (λ s. s.value.place ≡ place) }
    ensures code { IfOk result (λ s. code_of s.value.code ≡ PermissionCode) }
    ensures arguments { IfOk result (λ s. terms_of s.value.arguments.items ≡ held_term receiver ∷ []) }
    ensures amount { IfOk result (λ s. optional_term s.value.amount ≡ None) }
    ensures candidates { IfOk result (λ s. candidates_of s.value.candidates.items
        ≡ chunks.candidates (field_key (string_bytes field.now.value) (held_term receiver)) (heap_of heap.now)) }
{
    let mut arguments = Vec::new(alloc);
    arguments.push(receiver)?;
    let resource = Resource::Field(field.clone()?);
    search(
        alloc,
        place,
        Code::Permission,
        &resource,
        arguments,
        None,
        heap,
    )
}

/// A location is read in the first chunk that has some of it.
fn probe_field(
    alloc: Global,
    program: &Settled,
    place: Place,
    field: &Rc<String>,
    receiver: Rc<Term>,
    hole: &Rc<Hole>,
    state: SymState,
    conts: &mut Conts,
) -> Result<Move, AllocError>
    ensures { IfOk result (λ m. Stepped (settled program.now)
        (read_first (string_bytes field.now.value) (held_term receiver) place (state_of state) (giving (settled program.now) hole.now.value))
        conts.old.sides.items m conts.new.sides.items) }
{
    let wanted = search_field(alloc, place, field, receiver, &state.heap)?;
    read_from(alloc, program, &wanted, 0, hole, state, conts)
}

/// A location is read.
pub fn read_field(
    alloc: Global,
    program: &Settled,
    place: Place,
    field: &Rc<String>,
    receiver: Rc<Term>,
    hole: &Rc<Hole>,
    state: SymState,
    conts: &mut Conts,
) -> Result<Move, AllocError>
    ensures { IfOk result (λ m. Stepped (settled program.now)
        (rule.read_field (string_bytes field.now.value) (held_term receiver) (rule.field_sort (settled program.now) (string_bytes field.now.value)) place
        (state_of state) (giving (settled program.now) hole.now.value)) conts.old.sides.items m conts.new.sides.items) }
{
    if state.is_quiet() {
        probe_field(alloc, program, place, field, receiver, hole, state, conts)
    } else {
        vx_sums::read(alloc, program, place, field, receiver, hole, state, conts)
    }
}

/// An amount of a location or an instance is taken from the first chunk that has it.
fn take(
    alloc: Global,
    program: &Settled,
    place: Place,
    code: Code,
    resource: &Resource,
    arguments: Vec<Rc<Term>>,
    amount: &Rc<Term>,
    of: &Sort,
    after: Taken,
    state: SymState,
    conts: &mut Conts,
) -> Result<Move, AllocError>
    ensures { IfOk result (λ m. Stepped (settled program.now)
        (take_first (key resource.now arguments.items) (held_term amount.now) (sort_of of.now) place (code_of code) (state_of state)
        (λ k s. with_taken (settled program.now) after k.value (rule.leads_inside k) s)) conts.old.sides.items m conts.new.sides.items) }
{
    let all = Some(amount.clone()?);
    let wanted = search(alloc, place, code, resource, arguments, all, &state.heap)?;
    let after = Rc::new(alloc, after)?;
    take_from(alloc, program, &wanted, 0, amount, of, &after, state, conts)
}

/// An amount of a location is taken from the first chunk that has it.
fn probe_location(
    alloc: Global,
    program: &Settled,
    place: Place,
    code: Code,
    location: &Location,
    hole: &Rc<Hole>,
    state: SymState,
    conts: &mut Conts,
) -> Result<Move, AllocError>
    ensures { IfOk result (λ m. Stepped (settled program.now)
        (take_first (field_key (string_bytes location.now.field.value) (held_term location.now.receiver)) (held_term location.now.amount)
        (rule.field_sort (settled program.now) (string_bytes location.now.field.value)) place (code_of code) (state_of state)
        (λ k s. giving (settled program.now) hole.now.value k.value s)) conts.old.sides.items m conts.new.sides.items) }
{
    let mut arguments = Vec::new(alloc);
    arguments.push(location.receiver.clone()?)?;
    let resource = Resource::Field(location.field.clone()?);
    let of = field_sort(program, &location.field);
    let after = Taken::Value(hole.clone()?);
    take(
        alloc,
        program,
        place,
        code,
        &resource,
        arguments,
        &location.amount,
        &of,
        after,
        state,
        conts,
    )
}

/// An amount of a location is taken from a heap.
pub fn take_location(
    alloc: Global,
    program: &Settled,
    location: &Rc<Location>,
    code: Code,
    heap: &Rc<SymHeap>,
    hole: &Rc<Hole>,
    state: SymState,
    conts: &mut Conts,
) -> Result<Move, AllocError>
    ensures { IfOk result (λ m. Stepped (settled program.now)
        (taking_location (settled program.now) location.now.value.place (string_bytes location.now.value.field.value) (held_term location.now.value.receiver)
        (held_term location.now.value.amount) (code_of code) (heap_of heap.now.value) (state_of state) (giving (settled program.now) hole.now.value))
        conts.old.sides.items m conts.new.sides.items) }
{
    let place = state.placed(location.place);
    let mut state = state;
    let _before = state.exchange_heap(heap.clone()?);
    if state.is_quiet() {
        probe_location(alloc, program, place, code, location, hole, state, conts)
    } else {
        vx_sums::take(alloc, program, place, code, location, hole, state, conts)
    }
}

/// An amount of an instance is taken from a heap.
pub fn take_instance(
    alloc: Global,
    program: &Settled,
    instance: &Instance,
    code: Code,
    heap: &Rc<SymHeap>,
    hole: &Rc<Hole>,
    state: SymState,
    conts: &mut Conts,
) -> Result<Move, AllocError>
    ensures { IfOk result (λ m. Stepped (settled program.now)
        (taking_instance (settled program.now) instance.now.place (string_bytes instance.now.predicate.value) (values instance.now.arguments.value)
        (held_term instance.now.amount) (code_of code) (heap_of heap.now.value) (state_of state) (giving (settled program.now) hole.now.value))
        conts.old.sides.items m conts.new.sides.items) }
{
    let place = state.placed(instance.place);
    let mut state = state;
    let _before = state.exchange_heap(heap.clone()?);
    let arguments = instance.arguments.to_vec(alloc)?;
    let resource = Resource::Predicate(instance.predicate.clone()?);
    let after = Taken::Value(hole.clone()?);
    take(
        alloc,
        program,
        place,
        code,
        &resource,
        arguments,
        &instance.amount,
        &Sort::Snap,
        after,
        state,
        conts,
    )
}

/// An instance is exchanged for its body.
pub fn unfold(
    alloc: Global,
    program: &Settled,
    instance: Rc<Instance>,
    next: &Rc<Next>,
    state: SymState,
    conts: &mut Conts,
) -> Result<Move, AllocError>
    ensures { IfOk result (λ m. Stepped (settled program.now)
        (rule.unfolded (settled program.now) (rules (settled program.now)) instance.value.place (string_bytes instance.value.predicate.value)
        (values instance.value.arguments.value) (held_term instance.value.amount) (state_of state) (going (settled program.now) next.now.value))
        conts.old.sides.items m conts.new.sides.items) }
{
    let place = instance.place;
    let arguments = instance.arguments.to_vec(alloc)?;
    let resource = Resource::Predicate(instance.predicate.clone()?);
    let amount = instance.amount.clone()?;
    let after = Taken::Unfold(instance, next.clone()?);
    take(
        alloc,
        program,
        place,
        Code::Unfold,
        &resource,
        arguments,
        &amount,
        &Sort::Snap,
        after,
        state,
        conts,
    )
}
