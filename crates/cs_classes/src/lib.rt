//! Satisfied rows and closed classes make a model.
#![tactic(auto)]

ghost use Rattle.cs_classes.specs.Laws.{AssignedExactly, ClassesMakeModels, ClassesMakeValues, TablesMakeModels, ValuesAreElements};

/// Where an assignment of truths and classes satisfies the rows of Bool terms, and its classes are closed, each term's value is what is
/// assigned to it. So assertions without numbers are satisfiable exactly where such an assignment makes them true.
pub fn classes_make_models()
    ensures values { ValuesAreElements }
    ensures classes { ClassesMakeValues }
    ensures models { ClassesMakeModels }
    ensures tables { TablesMakeModels }
    ensures exactly { AssignedExactly }
{}
