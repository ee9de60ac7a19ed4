//! What is known where an expression stands.

ghost use Rattle.std.specs.Prelude.{◌≡◌, option_map};
ghost use Rattle.vx_expressions.specs.Scopes.{named};
ghost use Rattle.vx_expressions.specs.Settings as settings;
ghost use Rattle.vx_expressions.specs.Views.{setting, signature, table, known};

use indexmap::IndexMap;
use vx_ast::{Declaration, ValueType};

/// What the name of a member stands for, with its parameters as they are declared.
#[derive(Clone, Copy)]
pub enum Signature<'a> {
    Field(ValueType),
    /// Whether it has a body.
    Predicate(&'a [Declaration], bool),
    /// The type of its value.
    Function(&'a [Declaration], ValueType),
    /// Its returns.
    Method(&'a [Declaration], &'a [Declaration]),
}

/// A variable's type, and whether it can be assigned.
#[derive(Clone, Copy)]
pub struct Variable {
    pub of: ValueType,
    pub assignable: bool,
}

/// The members of a program by their names.
pub type Members<'a> = IndexMap<&'a str, Signature<'a>>;

/// The variables that are known, in the order of their declarations.
pub type Variables<'a> = IndexMap<&'a str, Variable>;

/// What is known where an expression stands.
#[derive(Clone, Copy)]
pub struct Setting<'s, 'a> {
    pub members: &'s Members<'a>,
    pub variables: &'s Variables<'a>,
    /// The type of `result`, in a function's postcondition.
    pub outcome: Option<ValueType>,
    /// Whether `old` may stand here.
    pub has_old: bool,
    /// Whether functions may be applied here.
    pub applies: bool,
    /// Whether amounts have to be known without running.
    pub constant: bool,
}

/// The variable of a name.
pub fn find(variables: &Variables, name: &str) -> Option<Variable>
    ensures { result ≡ named (known variables.now.entries) name.now }
{
    variables.get(name).copied()
}

/// What a member's name stands for.
pub fn member<'a>(members: &Members<'a>, name: &str) -> Option<Signature<'a>>
    ensures { option_map signature result ≡ named (table members.now.entries) name.now }
{
    members.get(name).copied()
}

impl<'s, 'a> Setting<'s, 'a> {
    /// In a method's precondition, and in a function's body.
    pub fn plainly(members: &'s Members<'a>, variables: &'s Variables<'a>) -> Setting<'s, 'a>
        ensures { setting result ≡ settings.plainly (table members.now.entries) (known variables.now.entries) }
    {
        Setting {
            members,
            variables,
            outcome: None,
            has_old: false,
            applies: true,
            constant: false,
        }
    }

    /// In a method's body, its postcondition and its invariants.
    pub fn within_method(members: &'s Members<'a>, variables: &'s Variables<'a>) -> Setting<'s, 'a>
        ensures { setting result ≡ settings.within_method (table members.now.entries) (known variables.now.entries) }
    {
        Setting {
            members,
            variables,
            outcome: None,
            has_old: true,
            applies: true,
            constant: false,
        }
    }

    /// In a function's precondition.
    pub fn before_function(
        members: &'s Members<'a>,
        variables: &'s Variables<'a>,
    ) -> Setting<'s, 'a>
        ensures { setting result ≡ settings.before_function (table members.now.entries) (known variables.now.entries) }
    {
        Setting {
            members,
            variables,
            outcome: None,
            has_old: false,
            applies: true,
            constant: true,
        }
    }

    /// In the postcondition of a function of this type.
    pub fn after_function(
        members: &'s Members<'a>,
        variables: &'s Variables<'a>,
        of: ValueType,
    ) -> Setting<'s, 'a>
        ensures { setting result ≡ settings.after_function (table members.now.entries) (known variables.now.entries) of }
    {
        Setting {
            members,
            variables,
            outcome: Some(of),
            has_old: false,
            applies: true,
            constant: false,
        }
    }

    /// In a function's measure.
    pub fn within_measure(members: &'s Members<'a>, variables: &'s Variables<'a>) -> Setting<'s, 'a>
        ensures { setting result ≡ settings.within_measure (table members.now.entries) (known variables.now.entries) }
    {
        Setting {
            members,
            variables,
            outcome: None,
            has_old: false,
            applies: false,
            constant: false,
        }
    }

    /// In a predicate's body.
    pub fn within_predicate(
        members: &'s Members<'a>,
        variables: &'s Variables<'a>,
    ) -> Setting<'s, 'a>
        ensures { setting result ≡ settings.within_predicate (table members.now.entries) (known variables.now.entries) }
    {
        Setting {
            members,
            variables,
            outcome: None,
            has_old: false,
            applies: false,
            constant: true,
        }
    }

    /// What a member's name stands for.
    pub fn member(&self, name: &str) -> Option<Signature<'a>>
        ensures { option_map signature result ≡ (setting self.now).member name.now }
    {
        member(self.members, name)
    }

    /// The type of a variable.
    pub fn variable(&self, name: &str) -> Option<ValueType>
        ensures { result ≡ (setting self.now).variable name.now }
    {
        find(self.variables, name).map(|v| v.of)
    }
}
