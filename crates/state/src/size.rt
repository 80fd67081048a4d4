// The size rule (document 01, File header; document 02, ask 3): what a file's header takes.
ghost use Rattle.std.specs.Prelude.{◌≡◌};
ghost use Rattle.state.specs.Size.{header_size};

use record::Release;

// The octets of a file's header, by the filter's length and the file's high and low: 11 are the loss counts' private extension.
pub fn header_size(filter: u8, high: Release, low: Release) -> u32
    ensures { result ≡ header_size filter high low }
{
    let extensions = record::extension_length(high.release) + record::extension_length(low.release);
    50 + filter as u32 + 11 + extensions as u32
}
