//! Laws of the definitions. Each function does nothing: its contract is the law.
ghost use Rattle.layout_printer.specs.Layout.{BitsAddUp};

/// Where each member starts at or after the end of each earlier one and ends within the size, the
/// bits of the members, of the holes and of the padding are those of the size.
pub fn bits_add_up()
    ensures { BitsAddUp }
{}
