//! What the text of examples/small.toml says: a law about the definitions, for calls that cite it. It does nothing.
#![tactic(auto)]

ghost use Rattle.dc_example.specs.Example.{ExampleIsSmall};

/// Whatever `read_tables` answers for the text of examples/small.toml is the small tables, or that memory ran out: the
/// text is not refused.
pub fn the_example_is_small()
    ensures { ExampleIsSmall }
{}
