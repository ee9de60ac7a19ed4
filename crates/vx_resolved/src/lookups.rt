//! What is asked of a settled program.

ghost use Rattle.std.specs.Prelude.{◌≡◌, ◌<◌, ◌^◌, length, slice_get, nat_eq, string_bytes, option_map, IfOk, Some};
ghost use Rattle.vx_ast.specs.Apart.{KeepsApart};
ghost use Rattle.vx_ast.specs.Syntax.{member_named, field_named, function_named, method_named, predicate_named};
ghost use Rattle.vx_graph.specs.Groups.{roots};
ghost use Rattle.vx_resolved.specs.Numbers.{number_named, AreGroups};
ghost use Rattle.vx_resolved.specs.Resolved as resolved;
ghost use Rattle.vx_resolved.specs.Resolved.{kind, member};
ghost use Rattle.vx_resolved.specs.Settled.{settled, optional_function, optional_method, optional_predicate};

use crate::functions::function_ranks;
use crate::numbers::member_numbers;
use crate::{Function, Kind, Member, Method, Predicate, Program, Settled};
use std::alloc::{AllocError, Global};
use std::rc::Rc;
use vx_ast::ValueType;
use vx_graph::Groups;

impl Settled {
    /// With tables of its members' names and of its functions.
    ///
    /// # Errors
    /// Memory runs out.
    pub fn new(alloc: Global, program: Program, groups: Groups) -> Result<Settled, AllocError>
        requires few { length program.members.items < 2 ^ 32 }
        requires groups { AreGroups (roots groups) (resolved.program program) }
        requires apart { KeepsApart (resolved.program program) }
        ensures { IfOk result (λ s. settled s ≡ resolved.program program) }
    {
        let numbers = member_numbers(alloc, &program.members)?;
        let ranks = function_ranks(alloc, &program.members)?;
        Ok(Settled {
            program,
            numbers,
            ranks,
            groups,
        })
    }

    /// No member is entered within itself.
    pub fn keeps_apart(&self)
        ensures { KeepsApart (settled self.now) }
    {}

    /// How many members there are.
    pub fn len(&self) -> usize
        ensures { result ≡ length (settled self.now) }
    {
        self.program.members.len()
    }

    /// Whether there are no members.
    pub fn is_empty(&self) -> bool
        ensures { result ≡ nat_eq (length (settled self.now)) 0 }
    {
        self.program.members.is_empty()
    }

    /// A member by its number in the file.
    pub fn member(&self, number: usize) -> &Member
        requires { number < length (settled self.now) }
        ensures { slice_get (settled self.now) number ≡ Some (member result.now) }
    {
        &self.program.members[number]
    }

    /// The number of the first member of a name, in file order.
    pub fn number_of(&self, name: &Rc<String>) -> Option<usize>
        ensures { result ≡ number_named 0 (settled self.now) (string_bytes name.now.value) }
    {
        self.numbers.get(name).copied()
    }

    /// What the first member of a name is.
    fn kind_named(&self, name: &Rc<String>) -> Option<&Kind>
        ensures { option_map (λ k. kind k.now) result ≡ member_named (settled self.now) (string_bytes name.now.value) }
    {
        let number = self.number_of(name)?;
        Some(&self.program.members[number].kind)
    }

    /// The type of a field, where the first member of this name is one.
    pub fn field_type(&self, name: &Rc<String>) -> Option<ValueType>
        ensures { result ≡ field_named (settled self.now) (string_bytes name.now.value) }
    {
        match self.kind_named(name) {
            Some(Kind::Field(of)) => Some(*of),
            Some(Kind::Predicate(_)) => None,
            Some(Kind::Function(_)) => None,
            Some(Kind::Method(_)) => None,
            None => None,
        }
    }

    /// A predicate, where the first member of this name is one.
    pub fn predicate(&self, name: &Rc<String>) -> Result<Option<Rc<Predicate>>, AllocError>
        ensures { IfOk result (λ o. optional_predicate o ≡ predicate_named (settled self.now) (string_bytes name.now.value)) }
    {
        match self.kind_named(name) {
            Some(Kind::Field(_)) => Ok(None),
            Some(Kind::Predicate(d)) => Ok(Some(d.clone()?)),
            Some(Kind::Function(_)) => Ok(None),
            Some(Kind::Method(_)) => Ok(None),
            None => Ok(None),
        }
    }

    /// A function, where the first member of this name is one.
    pub fn function(&self, name: &Rc<String>) -> Result<Option<Rc<Function>>, AllocError>
        ensures { IfOk result (λ o. optional_function o ≡ function_named (settled self.now) (string_bytes name.now.value)) }
    {
        match self.kind_named(name) {
            Some(Kind::Field(_)) => Ok(None),
            Some(Kind::Predicate(_)) => Ok(None),
            Some(Kind::Function(f)) => Ok(Some(f.clone()?)),
            Some(Kind::Method(_)) => Ok(None),
            None => Ok(None),
        }
    }

    /// A method, where the first member of this name is one.
    pub fn method(&self, name: &Rc<String>) -> Result<Option<Rc<Method>>, AllocError>
        ensures { IfOk result (λ o. optional_method o ≡ method_named (settled self.now) (string_bytes name.now.value)) }
    {
        match self.kind_named(name) {
            Some(Kind::Field(_)) => Ok(None),
            Some(Kind::Predicate(_)) => Ok(None),
            Some(Kind::Function(_)) => Ok(None),
            Some(Kind::Method(m)) => Ok(Some(m.clone()?)),
            None => Ok(None),
        }
    }
}
