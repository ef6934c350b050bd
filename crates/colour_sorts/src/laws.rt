ghost use Rattle.std.specs.Prelude.{◌≡◌, ◌<◌, ◌≤◌, ◌^◌, ℕ, true, None, List, length};
ghost use Rattle.std.specs.List.{list_any};
ghost use Rattle.std.specs.Str.{bytes_eq};
ghost use Rattle.colour_sorts.specs.Calls.{IsNamedSort, blocks_at, sort_at};
ghost use Rattle.colour_sorts.specs.Colours.{size};
ghost use Rattle.colour_sorts.specs.Comparing.{is_same_sort};
ghost use Rattle.colour_sorts.specs.Domain.{Domain, StandsFor};
ghost use Rattle.colour_sorts.specs.Instances.{WorkedInstances};
ghost use Rattle.colour_sorts.specs.Limits.{broken_in};
ghost use Rattle.colour_sorts.specs.Naming.{place_of};
ghost use Rattle.colour_sorts.specs.Words.{word_of};
ghost use Rattle.colour_sorts.specs.declared.rules.Rule.{Rule};
ghost use Rattle.colour_sorts.specs.declared.sorts.Sort.{Sort};
ghost use Rattle.name_tables.specs.Tables.{words_of_rules};
ghost use Rattle.net_model.specs.declared.sorts.NamedSort.{NamedSort};
ghost use Rattle.net_model.specs.declared.sorts.Partition.{Partition};

/// A law: a sort that breaks no rule has from 1 to 2^20 colours.
pub fn unbroken_sorts_have_colours()
    ensures { (constants : List (List (List ℕ))) (s : Sort) → broken_in constants s ≡ None → (0 < size constants s) × (size constants s ≤ 2 ^ 20) }
{}

/// A law: the sort of a partition that was built has from 1 to 2^20 colours, and a block for each.
pub fn divided_sorts_have_blocks()
    ensures { (domain : Domain) (sorts : List NamedSort) (partitions : List Partition) (at : ℕ) → StandsFor domain sorts partitions → at < length domain.partition_ids
        → (0 < size domain.constants (sort_at domain.partition_sorts at)) × (size domain.constants (sort_at domain.partition_sorts at) ≤ 2 ^ 20)
        × (length (blocks_at domain at) ≡ size domain.constants (sort_at domain.partition_sorts at)) }
{}

/// A law: the test of sorts tells whether they are the same.
pub fn sorts_are_told_apart()
    ensures { (a b : Sort) → (is_same_sort a b ≡ true → a ≡ b) × (a ≡ b → is_same_sort a b ≡ true) }
{}

/// A law: the word of each rule is one of `rule_words` of the name tables.
pub fn words_of_rules_are_listed()
    ensures { (rule : Rule) → list_any (bytes_eq (word_of rule)) words_of_rules ≡ true }
{}

/// A law: the sort of the named sort with an id is the one that `resolve` gives for the id as a name, and where no named sort has
/// the id, the name breaks a rule.
pub fn named_sorts_are_resolved()
    ensures { (domain : Domain) (sorts : List NamedSort) (partitions : List Partition) (id : List ℕ) → StandsFor domain sorts partitions
        → IsNamedSort domain sorts id (place_of domain.ids id) }
{}

/// Instances of the definitions, that were worked out by hand: the order of tuples, steps in a cycle, blocks and limits.
pub fn small_instances_hold()
    ensures { WorkedInstances }
{}
