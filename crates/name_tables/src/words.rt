ghost use Rattle.std.specs.Prelude.{◌≡◌};
ghost use Rattle.name_tables.specs.Tables.{words_of_nets, attributes_of_nets, words_of_formulas, words_of_certificates, words_of_rules};

use crate::tables::Table;

macro_rules! table {
    ($($word:literal)*) => {
        Table { words: &[$($word),*] }
    };
}

/// The names of the elements of net files, with those of the elements that are dropped and of those inside labels and terms.
#[tactic(auto, unfolding(crate::specs::Tables::words_of_nets))]
pub fn net_words() -> Table<61>
    ensures { result ≡ words_of_nets }
{
    table! {
        b"add" b"all" b"and" b"arc" b"booleanconstant" b"condition" b"cyclicenumeration"
        b"declaration" b"declarations" b"dot" b"dotconstant" b"empty" b"equality" b"feconstant"
        b"finiteenumeration" b"finiteintrange" b"finiteintrangeconstant" b"graphics"
        b"greaterthan" b"greaterthanorequal" b"hlinitialMarking" b"hlinscription" b"imply"
        b"inequality" b"initialMarking" b"inscription" b"lessthan" b"lessthanorequal" b"name"
        b"namedsort" b"natural" b"net" b"not" b"numberconstant" b"numberof" b"or" b"page"
        b"partition" b"partitionelement" b"partitionelementof" b"place" b"pnml" b"positive"
        b"predecessor" b"productsort" b"referencePlace" b"referenceTransition" b"scalarproduct"
        b"structure" b"subterm" b"subtract" b"successor" b"text" b"toolspecific" b"transition"
        b"tuple" b"type" b"useroperator" b"usersort" b"variable" b"variabledecl"
    }
}

/// The names of the attributes that net files have.
#[tactic(auto, unfolding(crate::specs::Tables::attributes_of_nets))]
pub fn net_attributes() -> Table<13>
    ensures { result ≡ attributes_of_nets }
{
    table! {
        b"declaration" b"end" b"id" b"name" b"ref" b"refpartition" b"refvariable" b"source"
        b"start" b"target" b"type" b"value" b"xmlns"
    }
}

/// The names of the elements of property files.
#[tactic(auto, unfolding(crate::specs::Tables::words_of_formulas))]
pub fn formula_words() -> Table<18>
    ensures { result ≡ words_of_formulas }
{
    table! {
        b"all-paths" b"conjunction" b"description" b"disjunction" b"exists-path" b"finally"
        b"formula" b"globally" b"id" b"integer-constant" b"integer-le" b"is-fireable" b"negation"
        b"place" b"property" b"property-set" b"tokens-count" b"transition"
    }
}

/// The words that the lines of a certificate begin with.
#[tactic(auto, unfolding(crate::specs::Tables::words_of_certificates))]
pub fn cert_words() -> Table<13>
    ensures { result ≡ words_of_certificates }
{
    table! {
        b"bound" b"cases" b"certificate" b"clash" b"close" b"each" b"end" b"flow" b"proof"
        b"property" b"split" b"step" b"trap"
    }
}

/// The words for the rules that sorts, partitions, terms and nodes of a net are checked against.
#[tactic(auto, unfolding(crate::specs::Tables::words_of_rules))]
pub fn rule_words() -> Table<24>
    ensures { result ≡ words_of_rules }
{
    table! {
        b"domain-limit" b"empty-product" b"empty-sort" b"no-inscription" b"no-order"
        b"not-a-colour" b"not-a-multiset" b"not-cyclic" b"partition-cover" b"partition-member"
        b"partition-sort" b"range-constant" b"range-upside-down" b"reference-circle"
        b"reference-kind" b"same-side" b"sort-circle" b"sorts-differ" b"unknown-node"
        b"unknown-operator" b"unknown-partition" b"unknown-sort" b"unknown-variable"
        b"variable-in-marking"
    }
}
