//! What the trees of the code stand for: the written ones and the settled ones, each variant, whatever its parts.

ghost use Rattle.std.specs.Prelude.{◌≡◌, true, [], ◌∷◌, Some, None, String, string_bytes, map, vec_items};
ghost use Rattle.std.specs.declared.alloc.Global.{Global};
ghost use Rattle.std.specs.declared.rc.Rc.{Rc};
ghost use Rattle.vx_ast.specs.declared.Place.{Place};
ghost use Rattle.vx_ast.specs.declared.Name.{Name as Name'};
ghost use Rattle.vx_ast.specs.declared.ValueType.TheVariants.{Int};
ghost use Rattle.vx_ast.specs.declared.UnaryOperator.TheVariants as unary;
ghost use Rattle.vx_ast.specs.declared.BinaryOperator.TheVariants as binary;
ghost use Rattle.vx_ast.specs.declared.Expr.{Expr as Expr'};
ghost use Rattle.vx_ast.specs.declared.ExprKind as tree;
ghost use Rattle.vx_ast.specs.declared.Declaration.{Declaration as Declaration'};
ghost use Rattle.vx_ast.specs.declared.Right.TheVariants as right;
ghost use Rattle.vx_ast.specs.declared.Clause.TheVariants as clause;
ghost use Rattle.vx_ast.specs.declared.StmtKind as step;
ghost use Rattle.vx_ast.specs.declared.Block as block;
ghost use Rattle.vx_ast.specs.declared.MemberKind.TheVariants as kind;
ghost use Rattle.vx_resolved.specs.declared.Operator.TheVariants as operator';
ghost use Rattle.vx_resolved.specs.declared.Connective.TheVariants as connective';
ghost use Rattle.vx_resolved.specs.declared.Division.TheVariants as division';
ghost use Rattle.vx_resolved.specs.declared.Expr as expr';
ghost use Rattle.vx_resolved.specs.declared.Exprs as exprs';
ghost use Rattle.vx_resolved.specs.declared.Assertion as assertion';
ghost use Rattle.vx_resolved.specs.declared.Declaration as declaration';
ghost use Rattle.vx_resolved.specs.declared.Method as method';
ghost use Rattle.vx_resolved.specs.declared.Kind.TheVariants as kind';
ghost use Rattle.vx_resolved.specs.declared.Stmt as stmt';
ghost use Rattle.vx_resolved.specs.declared.Block as block';
ghost use Rattle.vx_ast.specs.Written as written;
ghost use Rattle.vx_ast.specs.Syntax as syntax;
ghost use Rattle.vx_resolved.specs.Resolved as resolved;
ghost use Rattle.vx_examples.specs.Words.{Computes, at};
ghost use Rattle.vx_examples.specs.Viewed.{of_settled_operators, of_settled_connectives};

/// Expressions as written.
pub fn written_expressions()
    ensures number { written.written (at 1 1) (tree.Number 3) ≡ written.Number (at 1 1) 3 }
    ensures truth { written.written (at 1 1) (tree.Boolean true) ≡ written.Truth (at 1 1) true }
    ensures null { written.written (at 1 1) tree.Null ≡ written.Null (at 1 1) }
    ensures whole { written.written (at 1 1) tree.Write ≡ written.Whole (at 1 1) }
    ensures nothing { written.written (at 1 1) tree.Nothing ≡ written.Nothing (at 1 1) }
    ensures outcome { written.written (at 1 1) tree.Outcome ≡ written.Result (at 1 1) }
    ensures variable { (x : String Global) → written.written (at 1 1) (tree.Variable x) ≡ written.Variable (at 1 1) (string_bytes x) }
    ensures call { (f : String Global) (shape row : _) → written.written (at 1 1) (tree.Call' f shape row) ≡ written.Call (at 1 1) (string_bytes f) (written.written_row row) }
    ensures read { (p : _) (e : tree.ExprKind) (f : Name') → written.written (at 1 1) (tree.Read' p (at 1 2) e f) ≡ written.Read (at 1 1)
        (written.written (at 1 2) e) (written.name_of f) }
    ensures negated { (p : _) (e : tree.ExprKind) → written.written (at 1 1) (tree.Unary' unary.Not p (at 1 2) e) ≡ written.Unary (at 1 1) unary.Not (written.written (at 1 2) e) }
    ensures sum { (p q : _) (a b : tree.ExprKind) → written.written (at 1 1) (tree.Binary' binary.Add p (at 1 2) a q (at 1 3) b)
        ≡ written.Binary (at 1 1) binary.Add (written.written (at 1 2) a) (written.written (at 1 3) b) }
    ensures choice { (p q r : _) (c a b : tree.ExprKind) → written.written (at 1 1) (tree.Conditional' p (at 1 2) c q (at 1 3) a r (at 1 4) b)
        ≡ written.Choice (at 1 1) (written.written (at 1 2) c) (written.written (at 1 3) a) (written.written (at 1 4) b) }
    ensures old { (p : _) (e : tree.ExprKind) → written.written (at 1 1) (tree.Old' p (at 1 2) e) ≡ written.Old (at 1 1) (written.written (at 1 2) e) }
    ensures access { (p : _) (e : tree.ExprKind) → written.written (at 1 1) (tree.Access' p (at 1 2) e tree.None') ≡ written.Access (at 1 1) (written.written (at 1 2) e) written.All }
    ensures part { (p q : _) (e share : tree.ExprKind) → written.written (at 1 1) (tree.Access' p (at 1 2) e (tree.Some' q (at 1 3) share))
        ≡ written.Access (at 1 1) (written.written (at 1 2) e) (written.Part (written.written (at 1 3) share)) }
    ensures unfolding { (i : Name') (shape row p : _) (e : tree.ExprKind) → written.written (at 1 1) (tree.Unfolding' i shape row tree.None' p (at 1 2) e)
        ≡ written.Unfolding (at 1 1) (written.name_of i) (written.written_row row) written.All (written.written (at 1 2) e) }
    ensures optional { (e : Rc Expr' Global) → written.written_optional (Some e) ≡ written.Part (written.written_expr e.value) }
    ensures no_optional { written.written_optional None ≡ written.All }
    ensures all { (e : Rc Expr' Global) → written.written_all (e ∷ []) ≡ written.More (written.written_expr e.value) written.NoMore }
    ensures none { written.written_all [] ≡ written.NoMore }
    ensures expression { (e : Expr') → written.written_expr e ≡ written.written e.place e.kind }
{}

/// Statements and members as written.
pub fn written_statements()
    ensures value { (e : Rc Expr' Global) → written.written_right (right.Value e) ≡ written.Value (written.written_expr e.value) }
    ensures new { (fields : _) → written.written_right (right.New (at 1 2) fields) ≡ written.New (at 1 2) (map written.name_of (vec_items fields)) }
    ensures some_right { written.optional_right (Some (right.NewAll (at 1 2))) ≡ Some (written.NewAll (at 1 2)) }
    ensures new_all { written.written_right (right.NewAll (at 1 2)) ≡ written.NewAll (at 1 2) }
    ensures no_right { written.optional_right None ≡ None }
    ensures declares { (d : Declaration') → written.written_stmt (at 1 1) (step.Declare d None) ≡ written.Declare (at 1 1) (written.written_declaration d) None }
    ensures assigns { (x : Name') → written.written_stmt (at 1 1) (step.Assign x (right.NewAll (at 1 2))) ≡ written.Assign (at 1 1) (written.name_of x) (written.NewAll (at 1 2)) }
    ensures writes { (e v : Rc Expr' Global) (f : Name') → written.written_stmt (at 1 1) (step.Write e f v) ≡ written.Write (at 1 1)
        (written.written_expr e.value) (written.name_of f) (written.written_expr v.value) }
    ensures inhales { (e : Rc Expr' Global) → written.written_stmt (at 1 1) (step.Inhale e) ≡ written.Inhale (at 1 1) (written.written_expr e.value) }
    ensures exhales { (e : Rc Expr' Global) → written.written_stmt (at 1 1) (step.Exhale e) ≡ written.Exhale (at 1 1) (written.written_expr e.value) }
    ensures asserts { (e : Rc Expr' Global) → written.written_stmt (at 1 1) (step.Assert e) ≡ written.Assert (at 1 1) (written.written_expr e.value) }
    ensures assumes { (e : Rc Expr' Global) → written.written_stmt (at 1 1) (step.Assume e) ≡ written.Assume (at 1 1) (written.written_expr e.value) }
    ensures calls { (targets m es : _) → written.written_stmt (at 1 1) (step.Call targets m es) ≡ written.Invoke (at 1 1)
        (map written.name_of (vec_items targets)) (written.name_of m) (written.written_all (vec_items es)) }
    ensures folds { (i : _) → written.written_stmt (at 1 1) (step.Fold i) ≡ written.Fold (at 1 1) (written.name_of i.predicate)
        (written.written_all (vec_items i.arguments)) (written.written_optional i.amount) }
    ensures unfolds { (i : _) → written.written_stmt (at 1 1) (step.Unfold i) ≡ written.Unfold (at 1 1) (written.name_of i.predicate)
        (written.written_all (vec_items i.arguments)) (written.written_optional i.amount) }
    ensures loops { (e : Rc Expr' Global) (is p : _) (b : block.Block) → written.written_stmt (at 1 1) (step.While' e is p b) ≡ written.While (at 1 1)
        (written.written_expr e.value) (written.written_all (vec_items is)) (written.written_block b) }
    ensures chooses { (e : Rc Expr' Global) (p q : _) (a b : block.Block) → written.written_stmt (at 1 1) (step.If' e p a (step.Some' q b))
        ≡ written.If (at 1 1) (written.written_expr e.value) (written.written_block a) (written.Else (written.written_block b)) }
    ensures one_side { (e : Rc Expr' Global) (p : _) (a : block.Block) → written.written_stmt (at 1 1) (step.If' e p a step.None') ≡ written.If (at 1 1)
        (written.written_expr e.value) (written.written_block a) written.NoElse }
    ensures name { (x : Name') → written.name_of x ≡ written.placed x.place (string_bytes x.text) }
    ensures requires_clause { (e : Rc Expr' Global) → written.written_clause (clause.Requires e) ≡ written.Requires (written.written_expr e.value) }
    ensures ensures_clause { (e : Rc Expr' Global) → written.written_clause (clause.Ensures e) ≡ written.Ensures (written.written_expr e.value) }
    ensures measure { (e : Rc Expr' Global) → written.written_clause (clause.Decreases e) ≡ written.Decreases (written.written_expr e.value) }
    ensures no_block { written.optional_block None ≡ None }
    ensures no_expression { written.optional_expr None ≡ None }
    ensures field { written.written_kind (kind.Field Int) ≡ written.IsField Int }
    ensures predicate { (p : _) → written.written_kind (kind.Predicate p)
        ≡ written.IsPredicate record { parameters = map written.written_declaration (vec_items p.parameters); body = written.optional_expr p.body } }
    ensures function { (f : _) → written.written_kind (kind.Function f) ≡ written.IsFunction record {
      parameters = map written.written_declaration
          (vec_items f.parameters);
      of = f.value_type;
      clauses = map written.written_clause (vec_items f.clauses);
      body = written.written_expr f.body.value;
    } }
    ensures method { (m : _) → written.written_kind (kind.Method m) ≡ written.IsMethod record {
      parameters = map written.written_declaration
          (vec_items m.parameters);
      returns = map written.written_declaration (vec_items m.returns);
      clauses = map written.written_clause
          (vec_items m.clauses);
      body = written.optional_block m.body;
    } }
{}

/// Settled expressions, assertions, statements and blocks.
pub fn settled_trees()
    ensures operators { Computes resolved.operator of_settled_operators }
    ensures connectives { Computes resolved.connective of_settled_connectives }
    ensures number { resolved.expr (expr'.Number (at 1 1) 3) ≡ syntax.Number (at 1 1) 3 }
    ensures truth { resolved.expr (expr'.Truth (at 1 1) true) ≡ syntax.Truth (at 1 1) true }
    ensures null { resolved.expr (expr'.Null (at 1 1)) ≡ syntax.Null (at 1 1) }
    ensures part { resolved.expr (expr'.Part (at 1 1) 1 2) ≡ syntax.Part (at 1 1) 1 2 }
    ensures divided { (p q : _) (a b : expr'.Expr) → resolved.expr (expr'.Divide' (at 1 1) division'.Remainder p a q b)
        ≡ syntax.Divide (at 1 1) syntax.Remainder (resolved.expr a) (resolved.expr b) }
    ensures read { (p : _) (e : expr'.Expr) (x : Rc (String Global) Global) → resolved.expr (expr'.Read' (at 1 1) p e x) ≡ syntax.Read (at 1 1)
        (resolved.expr e) (string_bytes x.value) }
    ensures old { (p : _) (e : expr'.Expr) → resolved.expr (expr'.Old' (at 1 1) p e) ≡ syntax.Old (at 1 1) (resolved.expr e) }
    ensures applied { (p : _) (f : Rc (String Global) Global) (es : exprs'.Exprs) → resolved.expr (expr'.Apply' (at 1 1) f p es) ≡ syntax.Apply (at 1 1)
        (string_bytes f.value) (resolved.exprs es) }
    ensures no_arguments { resolved.exprs exprs'.NoMore ≡ syntax.NoMore }
    ensures called { (xs : _) (m : Rc (String Global) Global) (es : _) → resolved.stmt (stmt'.Call (at 1 1) xs m es) ≡ syntax.Call (at 1 1)
        (resolved.names_of xs.value.items) (string_bytes m.value) (resolved.exprs es.value) }
    ensures points { (e share : Rc expr'.Expr Global) (x : Rc (String Global) Global) → resolved.assertion (assertion'.Points (at 1 1) e x share)
        ≡ syntax.Points (at 1 1) (resolved.expr e.value) (string_bytes x.value) (resolved.expr share.value) }
    ensures implied_part { (p : _) (c : Rc expr'.Expr Global) (a : assertion'.Assertion) → resolved.assertion (assertion'.Implied' c p a)
        ≡ syntax.Implied (resolved.expr c.value) (resolved.assertion a) }
    ensures chosen_part { (p q : _) (c : Rc expr'.Expr Global) (a b : assertion'.Assertion) → resolved.assertion (assertion'.Chosen' c p a q b)
        ≡ syntax.Chosen (resolved.expr c.value) (resolved.assertion a) (resolved.assertion b) }
    ensures written { (e v : Rc expr'.Expr Global) (x : Rc (String Global) Global) → resolved.stmt (stmt'.Write (at 1 1) e x v) ≡ syntax.Write (at 1 1)
        (resolved.expr e.value) (string_bytes x.value) (resolved.expr v.value) }
    ensures looped { (p : _) (c : Rc expr'.Expr Global) (is : _) (b : block'.Block) → resolved.stmt (stmt'.While' (at 1 1) c is p b) ≡ syntax.While (at 1 1)
        (resolved.expr c.value) (resolved.assertions (vec_items is)) (resolved.block b) }
    ensures variable { (x : Rc (String Global) Global) → resolved.expr (expr'.Variable (at 1 1) x) ≡ syntax.Variable (at 1 1) (string_bytes x.value) }
    ensures negated { (p : _) (e : expr'.Expr) → resolved.expr (expr'.Not' (at 1 1) p e) ≡ syntax.Not (at 1 1) (resolved.expr e) }
    ensures sum { (p q : _) (a b : expr'.Expr) → resolved.expr (expr'.Operate' (at 1 1) operator'.Add p a q b) ≡ syntax.Operate (at 1 1) syntax.Add
        (resolved.expr a) (resolved.expr b) }
    ensures implied { (p q : _) (a b : expr'.Expr) → resolved.expr (expr'.Connect' (at 1 1) connective'.Implies p a q b)
        ≡ syntax.Connect (at 1 1) syntax.Implies (resolved.expr a) (resolved.expr b) }
    ensures choice { (p q r : _) (c a b : expr'.Expr) → resolved.expr (expr'.Choose' (at 1 1) p c q a r b) ≡ syntax.Choose (at 1 1) (resolved.expr c)
        (resolved.expr a) (resolved.expr b) }
    ensures pure { (e : Rc expr'.Expr Global) → resolved.assertion (assertion'.Pure e) ≡ syntax.Pure (resolved.expr e.value) }
    ensures both { (p q : _) (a b : assertion'.Assertion) → resolved.assertion (assertion'.Both' p a q b) ≡ syntax.Both (resolved.assertion a) (resolved.assertion b) }
    ensures declares { (x : Rc (String Global) Global) → resolved.stmt (stmt'.Declare (at 1 1) x Int) ≡ syntax.Declare (at 1 1) (string_bytes x.value) Int }
    ensures assigns { (x : Rc (String Global) Global) (e : Rc expr'.Expr Global) → resolved.stmt (stmt'.Assign (at 1 1) x e) ≡ syntax.Assign (at 1 1)
        (string_bytes x.value) (resolved.expr e.value) }
    ensures inhales { (a : Rc assertion'.Assertion Global) → resolved.stmt (stmt'.Inhale (at 1 1) a) ≡ syntax.Inhale (at 1 1) (resolved.assertion a.value) }
    ensures exhales { (a : Rc assertion'.Assertion Global) → resolved.stmt (stmt'.Exhale (at 1 1) a) ≡ syntax.Exhale (at 1 1) (resolved.assertion a.value) }
    ensures asserts { (a : Rc assertion'.Assertion Global) → resolved.stmt (stmt'.Assert (at 1 1) a) ≡ syntax.Assert (at 1 1) (resolved.assertion a.value) }
    ensures assumes { (e : Rc expr'.Expr Global) → resolved.stmt (stmt'.Assume (at 1 1) e) ≡ syntax.Assume (at 1 1) (resolved.expr e.value) }
    ensures chooses { (e : Rc expr'.Expr Global) (p q : _) (a b : block'.Block) → resolved.stmt (stmt'.If' (at 1 1) e p a q b) ≡ syntax.If (at 1 1)
        (resolved.expr e.value) (resolved.block a) (resolved.block b) }
    ensures declaration { (d : declaration'.Declaration) → resolved.declaration d ≡ record { name = string_bytes d.name.value; of = d.of } }
    ensures assertions { (a : Rc assertion'.Assertion Global) → resolved.assertions (a ∷ []) ≡ resolved.assertion a.value ∷ [] }
    ensures method { (m : Rc method'.Method Global) → resolved.kind (kind'.Method m) ≡ syntax.IsMethod (resolved.method m.value) }
    ensures no_assertions { resolved.assertions [] ≡ [] }
    ensures done { resolved.block block'.Done ≡ syntax.Done }
    ensures then { (p q : _) (s : stmt'.Stmt) (b : block'.Block) → resolved.block (block'.Then' p s q b) ≡ syntax.Then (resolved.stmt s) (resolved.block b) }
    ensures no_block { resolved.optional_block None ≡ None }
    ensures block { (b : Rc block'.Block Global) → resolved.optional_block (Some b) ≡ Some (resolved.block b.value) }
{}
