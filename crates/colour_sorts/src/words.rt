ghost use Rattle.std.specs.Prelude.{◌≡◌};
ghost use Rattle.colour_sorts.specs.Words.{word_of};

use crate::rules::Rule;

impl Rule {
    /// The word by which refusals name the rule, which is one of `rule_words` of the name tables.
    pub fn word(self) -> &'static [u8]
        ensures { result.now ≡ word_of self }
    {
        match self {
            Rule::UnknownSort => b"unknown-sort",
            Rule::SortCircle => b"sort-circle",
            Rule::RangeUpsideDown => b"range-upside-down",
            Rule::EmptySort => b"empty-sort",
            Rule::EmptyProduct => b"empty-product",
            Rule::DomainLimit => b"domain-limit",
            Rule::PartitionSort => b"partition-sort",
            Rule::PartitionMember => b"partition-member",
            Rule::PartitionCover => b"partition-cover",
            Rule::VariableInMarking => b"variable-in-marking",
            Rule::UnknownVariable => b"unknown-variable",
            Rule::UnknownOperator => b"unknown-operator",
            Rule::RangeConstant => b"range-constant",
            Rule::NotCyclic => b"not-cyclic",
            Rule::NotAColour => b"not-a-colour",
            Rule::NotAMultiset => b"not-a-multiset",
            Rule::SortsDiffer => b"sorts-differ",
            Rule::UnknownPartition => b"unknown-partition",
            Rule::NoOrder => b"no-order",
            Rule::UnknownNode => b"unknown-node",
            Rule::ReferenceCircle => b"reference-circle",
            Rule::ReferenceKind => b"reference-kind",
            Rule::SameSide => b"same-side",
            Rule::NoInscription => b"no-inscription",
        }
    }
}
