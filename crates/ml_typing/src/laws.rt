//! Laws of typings. None of these functions does anything; what they ensure is the law.
ghost use Rattle.std.specs.Prelude.{◌≡◌, ℕ, ◌≤◌, List, Option, Some, slice_get};
ghost use Rattle.oxml_base.specs.declared.span.Span.{Span as SpanValue};
ghost use Rattle.ml_types.specs.Types.{Tree, tree_size};
ghost use Rattle.ml_typing.specs.declared.equation.Unknown.{Unknown as UnknownValue};
ghost use Rattle.ml_typing.specs.declared.equation.Step.{Step as StepValue};
ghost use Rattle.ml_typing.specs.Terms.{Shape, Context};
ghost use Rattle.ml_typing.specs.Typing.{Assignment, Pair, Satisfies, Occurs, IsInstance, IsPrincipal, ItemSteps, IsTyped};
ghost use Rattle.ml_typing.specs.Refusals.{Fits, IsUnsolved, IsTooLarge, HasTypes, FirstFault, AllCompare, IsBadComparison};
ghost use Rattle.ml_typing.specs.Laws.{through, IsMostGeneral, typing_of, ItemsApart, IsSameTypes};

/// A typing at other types of its variables is a typing.
pub fn typing_through_substitution()
    ensures { (f : ℕ → Tree) (a : Assignment) (ps : List Pair) → Satisfies a ps → Satisfies (through f a) ps }
{}

/// Two principal typings have the same instances, so that either serves for a scheme.
pub fn same_instances()
    ensures { (ps : List Pair) (a b c : Assignment) → IsPrincipal ps a → IsPrincipal ps b → IsInstance a c ps → IsInstance b c ps }
{}

/// A most general solution is a principal typing.
pub fn most_general_is_principal()
    ensures { (ps : List Pair) (m : UnknownValue → Shape) (number : UnknownValue → ℕ) (unknown : ℕ → UnknownValue) → ((v : UnknownValue) → unknown (number v) ≡ v) → IsMostGeneral ps m → IsPrincipal ps (typing_of m number) }
{}

/// A principal typing has the smallest types, so that every solution makes a type too large where
/// the most general one does.
pub fn principal_is_smallest()
    ensures { (ps : List Pair) (a b : Assignment) → IsPrincipal ps a → Satisfies b ps → (u : UnknownValue) → Occurs u ps → tree_size (a u) ≤ tree_size (b u) }
{}

/// Steps with a solution in which no type is too large have no fault.
pub fn steps_that_fit_have_no_fault()
    ensures unsolved { (c : Context) (steps : List StepValue) (rule : ℕ) (span : SpanValue) → Fits c steps → IsUnsolved c steps rule span → ⊥ }
    ensures large { (c : Context) (steps : List StepValue) (span : SpanValue) → Fits c steps → IsTooLarge c steps span → ⊥ }
{}

/// Steps have one fault at most: one rule at one place, or the limit at one place, of one step.
pub fn one_fault_of_steps()
    ensures unsolved { (c : Context) (steps : List StepValue) (rule other : ℕ) (span place : SpanValue) → IsUnsolved c steps rule span → IsUnsolved c steps other place → (rule ≡ other) × (span ≡ place) }
    ensures large { (c : Context) (steps : List StepValue) (span place : SpanValue) → IsTooLarge c steps span → IsTooLarge c steps place → span ≡ place }
    ensures either { (c : Context) (steps : List StepValue) (rule : ℕ) (span place : SpanValue) → IsUnsolved c steps rule span → IsTooLarge c steps place → ⊥ }
    ensures unsolved_step { (c : Context) (steps : List StepValue) (rule other : ℕ) (span place : SpanValue) → (f : IsUnsolved c steps rule span) → (g : IsUnsolved c steps other place) → f.k ≡ g.k }
    ensures large_step { (c : Context) (steps : List StepValue) (span place : SpanValue) → (f : IsTooLarge c steps span) → (g : IsTooLarge c steps place) → f.k ≡ g.k }
{}

/// A program that has types has no first fault, whichever principal typings show the one and the other.
pub fn program_with_types_has_no_fault()
    ensures unsolved { (uses : ℕ → Option ℕ) (c : Context) (items : List ItemSteps) (types : List Assignment) (rule : ℕ) (span : SpanValue) → ItemsApart uses items → HasTypes c items types → FirstFault c items (λ e steps. IsUnsolved e steps rule span) → ⊥ }
    ensures large { (uses : ℕ → Option ℕ) (c : Context) (items : List ItemSteps) (types : List Assignment) (span : SpanValue) → ItemsApart uses items → HasTypes c items types → FirstFault c items (λ e steps. IsTooLarge e steps span) → ⊥ }
{}

/// A program has one first fault at most: one rule at one place, or the limit at one place, behind the
/// same items.
pub fn one_first_fault()
    ensures unsolved { (uses : ℕ → Option ℕ) (c : Context) (items : List ItemSteps) (rule other : ℕ) (span place : SpanValue) → ItemsApart uses items → FirstFault c items (λ e steps. IsUnsolved e steps rule span) → FirstFault c items (λ e steps. IsUnsolved e steps other place) → (rule ≡ other) × (span ≡ place) }
    ensures large { (uses : ℕ → Option ℕ) (c : Context) (items : List ItemSteps) (span place : SpanValue) → ItemsApart uses items → FirstFault c items (λ e steps. IsTooLarge e steps span) → FirstFault c items (λ e steps. IsTooLarge e steps place) → span ≡ place }
    ensures either { (uses : ℕ → Option ℕ) (c : Context) (items : List ItemSteps) (rule : ℕ) (span place : SpanValue) → ItemsApart uses items → FirstFault c items (λ e steps. IsUnsolved e steps rule span) → FirstFault c items (λ e steps. IsTooLarge e steps place) → ⊥ }
    ensures unsolved_item { (uses : ℕ → Option ℕ) (c : Context) (items : List ItemSteps) (rule other : ℕ) (span place : SpanValue) → ItemsApart uses items → (f : FirstFault c items (λ e steps. IsUnsolved e steps rule span)) → (g : FirstFault c items (λ e steps. IsUnsolved e steps other place)) → f.before ≡ g.before }
    ensures large_item { (uses : ℕ → Option ℕ) (c : Context) (items : List ItemSteps) (span place : SpanValue) → ItemsApart uses items → (f : FirstFault c items (λ e steps. IsTooLarge e steps span)) → (g : FirstFault c items (λ e steps. IsTooLarge e steps place)) → f.before ≡ g.before }
{}

/// In a program that has types all comparisons are good, or one is the first that is not, whichever
/// principal typings show it.
pub fn one_bad_comparison()
    ensures good { (uses : ℕ → Option ℕ) (c : Context) (items : List ItemSteps) (types others : List Assignment) (span : SpanValue) → ItemsApart uses items → IsTyped c types items → IsTyped c others items → AllCompare types items → IsBadComparison items others span → ⊥ }
    ensures bad { (uses : ℕ → Option ℕ) (c : Context) (items : List ItemSteps) (types others : List Assignment) (span place : SpanValue) → ItemsApart uses items → IsTyped c types items → IsTyped c others items → IsBadComparison items types span → IsBadComparison items others place → span ≡ place }
{}

/// The types of a program are unique, up to the names of variables: of two lists of principal typings
/// each gives an item the types of the other, with other types for the variables.
pub fn types_are_unique()
    ensures { (uses : ℕ → Option ℕ) (c : Context) (items : List ItemSteps) (types others : List Assignment) → ItemsApart uses items → IsTyped c types items → IsTyped c others items → (i : ℕ) (item : ItemSteps) (a b : Assignment) → slice_get items i ≡ Some item → slice_get types i ≡ Some a → slice_get others i ≡ Some b → IsSameTypes item.steps a b }
{}
