//! What reading a value means, in the standard's own words.
ghost use Rattle.dwarf_forms.specs.Law.{ValuesAreRead, RefusalsAreFirst};
ghost use Rattle.dwarf_forms.specs.Sizes.{WidthsAreOfLayouts};

/// A value is read exactly where one stands that begins and ends not past the unit's end, and then
/// it is that one and ends where that one does.
pub fn values_are_read()
    ensures { ValuesAreRead }
{}

/// A value is refused exactly for the first piece of it, in the order of the bytes, that can't be
/// read.
pub fn refusals_are_first()
    ensures { RefusalsAreFirst }
{}

/// The widths of the table of forms of abbreviations are those of the layouts here, form by form.
pub fn widths_are_of_layouts()
    ensures { WidthsAreOfLayouts }
{}
