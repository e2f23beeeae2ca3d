// The kinds of tables.
ghost use Rattle.std.specs.Prelude.{◌≡◌, map};
ghost use Rattle.std.specs.List.{list_any};
ghost use Rattle.std.specs.Str.{bytes_eq};
ghost use Rattle.section_rows.specs.Shown.{shown_column};
ghost use Rattle.table_sections.specs.Kinds.{columns_of, tags_of};

use section_rows::Column;

/// A table of a dump.
#[derive(Clone, Copy)]
pub enum TableKind {
    /// The ETS tables: a row for each `ets` section, with its id and the fields `Table`, `Name`, `Objects` and
    /// `Words`.
    Ets,
    /// The ports: a row for each `port` section, with its id and the fields `Connected`, `Links` and
    /// `Registered as`.
    Ports,
    /// What the ports are: a row for each `port` section, with its id and the first
    /// line of its body that begins with `Port controls ` or `Port is `.
    PortUses,
    /// The other nodes: a row for each `visible_node`, `hidden_node` and `not_connected` section, with its
    /// tag, its id and the fields `Name`, `Controller` and `Creation`.
    Nodes,
    /// The loaded modules: a row for each `mod` section, with its id and the fields `Current size` and
    /// `Old size`.
    Mods,
}

// Whether a table lists the sections of a tag.
pub(crate) fn lists(kind: TableKind, tag: &[u8]) -> bool
    ensures { result ≡ list_any (bytes_eq tag.now) (tags_of kind) }
{
    match kind {
        TableKind::Ets => tag == b"ets".as_slice(),
        TableKind::Ports | TableKind::PortUses => tag == b"port".as_slice(),
        TableKind::Nodes => {
            tag == b"visible_node".as_slice()
                || tag == b"hidden_node".as_slice()
                || tag == b"not_connected".as_slice()
        }
        TableKind::Mods => tag == b"mod".as_slice(),
    }
}

// The columns of a table.
pub(crate) fn columns(kind: TableKind) -> &'static [Column<'static>]
    ensures { map shown_column result.now ≡ columns_of kind }
{
    match kind {
        TableKind::Ets => &[
            Column::Id,
            Column::Field(b"Table"),
            Column::Field(b"Name"),
            Column::Field(b"Objects"),
            Column::Field(b"Words"),
        ],
        TableKind::Ports => &[
            Column::Id,
            Column::Field(b"Connected"),
            Column::Field(b"Links"),
            Column::Field(b"Registered as"),
        ],
        TableKind::PortUses => &[Column::Id, Column::Starting(b"Port controls ", b"Port is ")],
        TableKind::Nodes => &[
            Column::Tag,
            Column::Id,
            Column::Field(b"Name"),
            Column::Field(b"Controller"),
            Column::Field(b"Creation"),
        ],
        TableKind::Mods => &[
            Column::Id,
            Column::Field(b"Current size"),
            Column::Field(b"Old size"),
        ],
    }
}
