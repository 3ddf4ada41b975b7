//! Settings as a C program is told them.

ghost use Rattle.std.specs.Prelude.{◌≡◌, ◌↔◌, IsTrue, false};
ghost use Rattle.flat_negotiation.specs.Written.{IsWritten};
ghost use Rattle.live_calls.specs.Settings.{HasCode, IsShown, IsWritable, without_image};

use flat_negotiation::{FlatSettings, domain_code, no_image, settings_of};
use negotiation_inputs::Platform;
use sysmem_formats::{Offer, PixelFormat};
use sysmem_merge::{Settings, is_sound};

/// Whether C has a code for the format of an offer.
fn has_code(offer: Offer) -> bool
    ensures { IsTrue result ↔ HasCode offer }
{
    match offer {
        Offer::NoImage => true,
        Offer::Image(pair, _) => !matches!(pair.format, PixelFormat::L8),
    }
}

/// Whether C has words for settings.
fn is_writable(platform: &Platform, settings: &Settings) -> bool
    ensures { IsTrue result ↔ IsWritable platform.now settings.now }
{
    has_code(settings.offer) && is_sound(platform, settings)
}

fn without_image(struct_size: usize, settings: &Settings) -> FlatSettings
    ensures { result ≡ without_image struct_size settings.now }
{
    FlatSettings {
        struct_size,
        bytes: settings.size_bytes,
        heap: settings.place.heap,
        count: settings.count,
        coherency: domain_code(settings.place.coherency),
        image: no_image(),
    }
}

/// Settings that C has words for, in a struct of this size.
#[tactic(auto, using(crate::proofs::Writable::can_be_written))]
fn written(struct_size: usize, platform: &Platform, settings: &Settings) -> FlatSettings
    requires { IsWritable platform.now settings.now }
    ensures { IsWritten struct_size settings.now result }
{
    let _ = platform;
    settings_of(struct_size, settings)
}

/// Settings in a struct of this size; of a format without a code the image is all 0.
pub(crate) fn flat_settings(
    struct_size: usize,
    platform: &Platform,
    settings: &Settings,
) -> FlatSettings
    ensures { IsShown platform.now struct_size settings.now result }
{
    if is_writable(platform, settings) {
        written(struct_size, platform, settings)
    } else {
        without_image(struct_size, settings)
    }
}
