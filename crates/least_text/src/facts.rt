// A fact of texts that a proof here sees only as what a call ensures: it is shown by a call that does nothing else.
ghost use Rattle.std.specs.Prelude.{◌≤◌, length};
ghost use Rattle.cert_model.specs.Accepted.{most_bytes};

/// Shows that what lies in memory is no longer than a certificate may be.
pub(crate) fn fits_certificate(text: &Vec<u8>)
    ensures { length text.now.items ≤ most_bytes }
{
    text.len();
}
