//! The names of tables are spelled as names. The calls do nothing.

ghost use Rattle.std.specs.Prelude.{length};
ghost use Rattle.dc_read_back.specs.Printed.{AreSpelled};

use dc_tables::Tables;

/// Those of the buses.
pub(crate) fn buses_are_spelled(tables: &Tables)
    ensures { AreSpelled tables.now.names.buses (length tables.now.buses) }
{
    for bus in 0..tables.bus_count() {
        let _name = tables.bus_name(bus).text();
    }
}

/// Those of the outputs.
pub(crate) fn outputs_are_spelled(tables: &Tables)
    ensures { AreSpelled tables.now.names.outputs (length tables.now.outputs) }
{
    for output in 0..tables.output_count() {
        let _name = tables.output_name(output).text();
    }
}

/// Those of the labels.
pub(crate) fn labels_are_spelled(tables: &Tables)
    ensures { AreSpelled tables.now.names.labels (length tables.now.labels) }
{
    for label in 0..tables.label_count() {
        let _name = tables.label_name(label).text();
    }
}
