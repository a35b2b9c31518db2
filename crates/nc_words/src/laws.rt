//! Laws of words. Each function does nothing; its contract is the law.

ghost use Rattle.nc_words.specs.Lines.{LineMeansOne};
ghost use Rattle.nc_words.specs.Plain.{DashesMeanThemselves, PlainMeanThemselves};
ghost use Rattle.nc_words.specs.Words.{BadNameHasOne, WordsMeanOne};

/// Words say one thing.
pub fn words_mean_one()
    ensures { WordsMeanOne }
{}

/// A bad name has one cause.
pub fn bad_name_has_one()
    ensures { BadNameHasOne }
{}

/// Words of which none begins with `-` are their own arguments, and leave each option as it is.
pub fn plain_mean_themselves()
    ensures { PlainMeanThemselves }
{}

/// After `--` each word is an argument.
pub fn dashes_mean_themselves()
    ensures { DashesMeanThemselves }
{}

/// A line of a batch asks for one act with one list of bytes.
pub fn line_means_one()
    ensures { LineMeansOne }
{}
