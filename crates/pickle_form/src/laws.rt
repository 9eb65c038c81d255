//! What holds of pickles and doubles. The functions do nothing: what each ensures is the law.
ghost use Rattle.pickle_form.specs.Double.{DoubleIsNearest};
ghost use Rattle.pickle_form.specs.Reading.{PickleIsReadBack};

/// A reader gets back from a pickle the value that was written.
pub fn pickle_is_read_back()
    ensures { PickleIsReadBack }
{}

/// No double is nearer to a value than the one that is written for it.
pub fn double_is_nearest()
    ensures { DoubleIsNearest }
{}
