ghost use Rattle.multiset_terms.specs.Bindings.{BuiltAreAScope, IndicesBind};
ghost use Rattle.multiset_terms.specs.Dependence.{PartsMakeTheGuard, TruthDependsOnVariables, ValuesDependOnVariables};
ghost use Rattle.multiset_terms.specs.Instances.{WorkedInstances};
ghost use Rattle.multiset_terms.specs.Laws.{AllNodesAgree, AllTupleNodesAgree, ColoursAreToldApart, ColoursStandOnce, ListsAgree, TuplesAgree};
ghost use Rattle.multiset_terms.specs.Usable.{BuiltAreUsable, GuardsCanBeJudged, IndicesAreBoundBySizes, TermsCanBeAdded, TermsCanBeEvaluated, UsableAreDeclared};

/// A law for those who read the definitions: the test of colours is true of two of them exactly where they are the same.
pub fn colours_are_told_apart()
    ensures { ColoursAreToldApart }
{}

/// A law for those who number colours: where the constants of each enumeration are distinct, each colour of a sort stands once in
/// the list of the sort's colours.
pub fn colours_stand_once()
    ensures { ColoursStandOnce }
{}

/// A law for those who number colours: over a list in which each colour stands once, the counts, places and steps of numbers are
/// those of the colours.
pub fn numbers_agree_with_colours()
    ensures colours { ListsAgree }
    ensures tuples { TuplesAgree }
{}

/// A law for those who compile terms: over the list of a sort's colours, variables, constants, steps, multiples, sums, differences and
/// tuples of compiled terms mean what those of the written terms mean.
pub fn nodes_agree()
    ensures nodes { AllNodesAgree }
    ensures tuples { AllTupleNodesAgree }
{}

/// A law for those who compile terms: declarations that are built, with ids and constants that differ, and variables whose ids differ
/// are a scope.
pub fn built_declarations_are_a_scope()
    ensures { BuiltAreAScope }
{}

/// A law for those who evaluate terms: colour indices, one for each variable and each below the number of colours of its sort, bind the
/// variables.
pub fn indices_in_range_bind()
    ensures { IndicesBind }
{}

/// A law for those who bind variables: the value of a term, and whether it has one, depends on the variables that occur in it, alone;
/// and so does the truth of a guard.
pub fn values_depend_on_variables()
    ensures values { ValuesDependOnVariables }
    ensures truths { TruthDependsOnVariables }
{}

/// A law for those who test the parts of a guard: it is true where all its parts are.
pub fn parts_make_the_guard()
    ensures { PartsMakeTheGuard }
{}

/// A law for those who compile terms: declarations that are built, with ids and constants that differ, can be used, and those that can
/// be used are declared. Indices are in range exactly where they are a binding of variables that have as many values as their sorts
/// have colours.
pub fn declarations_can_be_used()
    ensures built { BuiltAreUsable }
    ensures declared { UsableAreDeclared }
    ensures bound { IndicesAreBoundBySizes }
{}

/// A law for those who evaluate terms: over declarations that can be used, what is compiled can be evaluated, added to a buffer and
/// judged under each such binding.
pub fn compiled_terms_can_be_evaluated()
    ensures evaluated { TermsCanBeEvaluated }
    ensures added { TermsCanBeAdded }
    ensures judged { GuardsCanBeJudged }
{}

/// Instances of the definitions, that were worked out by hand: weights, first broken nodes and a difference.
pub fn small_instances_hold()
    ensures { WorkedInstances }
{}
