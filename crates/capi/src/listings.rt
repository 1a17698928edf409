// The bench sheet.
ghost use Rattle.std.specs.Prelude.{◌≡◌};
ghost use Rattle.listing.specs.Answers.{listing_answer, listing_after};
ghost use Rattle.wire.specs.Wire.{counted_code};

#[unsafe(no_mangle)]
pub extern "C" fn zov_sheet(text: &[u8], out: &mut [u8]) -> u32
    ensures value { result ≡ counted_code (listing_answer text.now out.old) }
    ensures out_after { out.new ≡ listing_after text.now out.old }
{
    wire::value_code(listing::listing(text, out))
}
