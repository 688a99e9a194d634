// The theorems about the table and the homes, each asked for by a contract.
ghost use Rattle.groups.specs.Symbols.{SymbolsTell};
ghost use Rattle.groups.specs.Table.{TableClosed};
ghost use Rattle.groups.specs.Tabled.{HomesLeast};

// The rows of each group are closed under composition and inverse, up to translations by its periods.
pub fn table_closed()
    ensures { TableClosed }
{}

// The home of a cell is an image of it in the repeat, and no image of it in the repeat comes before it.
pub fn homes_least()
    ensures { HomesLeast }
{}

// Each symbol is that of one group.
pub fn symbols_tell()
    ensures { SymbolsTell }
{}
