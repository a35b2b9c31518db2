//! Laws of payloads. Each function does nothing; its contract is the law.

ghost use Rattle.nc_meta.specs.Metas.{MetasFit, OneSpelling};

/// A payload is that of one meta.
pub fn one_spelling()
    ensures { OneSpelling }
{}

/// A payload has at most 1262 bytes.
pub fn metas_fit()
    ensures { MetasFit }
{}
