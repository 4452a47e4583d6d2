//! Why a configuration or an image is refused, as it is written.
ghost use Rattle.std.specs.Prelude.{◌≡◌, IfOk};
ghost use Rattle.iter_config.specs.Faults.{fault};
ghost use Rattle.tablet_replay.specs.Refusals.{cause_word, config_line, image_line, rule_word};

use cell_key::{ByteText, NoMemory};
use iter_config::Rule;
use sorted_file::ImageCause;
use std::alloc::Global;
use tablet_steps::append_numbered;

/// The line `config RULE AT`.
pub fn config_line(alloc: Global, rule: Rule, at: u32) -> Result<ByteText, NoMemory>
    ensures { IfOk result (λ text. text ≡ config_line (fault rule at)) }
{
    let mut text = ByteText::new(alloc);
    text.append(b"config ")?;
    text.append(rule_word(rule))?;
    append_numbered(alloc, &mut text, b" ", u64::from(at))?;
    text.append(b"\n")?;
    Ok(text)
}

/// The line `image CAUSE AT`.
pub fn image_line(alloc: Global, cause: ImageCause, at: u64) -> Result<ByteText, NoMemory>
    ensures { IfOk result (λ text. text ≡ image_line (record { at = at; cause = cause })) }
{
    let mut text = ByteText::new(alloc);
    text.append(b"image ")?;
    text.append(cause_word(cause))?;
    append_numbered(alloc, &mut text, b" ", at)?;
    text.append(b"\n")?;
    Ok(text)
}

fn rule_word(rule: Rule) -> &'static [u8]
    ensures { result.now ≡ rule_word rule }
{
    match rule {
        Rule::Toml => b"toml",
        Rule::Field => b"field",
        Rule::Name => b"name",
        Rule::Priority => b"priority",
        Rule::NoScan => b"K2",
        Rule::NotPrefix => b"K3",
        Rule::ScanOnly => b"K4",
        Rule::Order => b"K5",
        Rule::Overlap => b"K6",
        Rule::FullUnderVersions => b"K7",
    }
}

fn cause_word(cause: ImageCause) -> &'static [u8]
    ensures { result.now ≡ cause_word cause }
{
    match cause {
        ImageCause::Length => b"length",
        ImageCause::Magic => b"magic",
        ImageCause::Version => b"version",
        ImageCause::Bound => b"bound",
        ImageCause::Shared => b"shared",
        ImageCause::Order => b"order",
        ImageCause::Index => b"index",
        ImageCause::Tail => b"tail",
    }
}
