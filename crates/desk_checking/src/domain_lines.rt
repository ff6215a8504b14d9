//! The lines of what is declared beside a model and can't be read.
ghost use Rattle.std.specs.Prelude.{◌≡◌, ◌++◌, OnOk, Some, map, take};
ghost use Rattle.std.specs.List.{flat_map};
ghost use Rattle.json.specs.Print.{quoted};
ghost use Rattle.desk_lines.specs.Lines.{ended};
ghost use Rattle.dmn_check.specs.Notes.{most_findings};
ghost use Rattle.dmn_check.specs.Pointer.{escaped, escaped_byte};
ghost use Rattle.desk_checking.specs.Domains.{domain_pointer};
ghost use Rattle.desk_checking.specs.DomainsView.{name_view, name_views};
ghost use Rattle.desk_checking.specs.Told.{domain_line, domain_lines, more_domains};

use json_writer::{add_number, add_quoted};
use std::alloc::{AllocError, Global};

/// The most places that are told.
const MOST_PLACES: usize = 100;

/// Adds a byte as it stands in a JSON Pointer.
fn add_escaped(byte: u8, text: &mut Vec<u8>) -> Result<(), AllocError>
    ensures { OnOk result (text.new.items ≡ text.old.items ++ escaped_byte byte) }
{
    if byte == b'~' {
        return text.extend_from_slice(b"~0");
    }
    if byte == b'/' {
        return text.extend_from_slice(b"~1");
    }
    text.push(byte)?;
    Ok(())
}

/// Adds bytes as they stand in a JSON Pointer.
fn add_all_escaped(bytes: &[u8], text: &mut Vec<u8>) -> Result<(), AllocError>
    ensures { OnOk result (text.new.items ≡ text.old.items ++ escaped bytes.now) }
{
    for byte in bytes {
        add_escaped(*byte, text)?;
    }
    Ok(())
}

/// Adds the place of what stands under a name. No escape of a text in JSON has a `~` or a `/`, so the name is put into quotes first.
fn add_named(alloc: Global, name: &str, text: &mut Vec<u8>) -> Result<(), AllocError>
    ensures { OnOk result (text.new.items ≡ text.old.items ++ quoted (domain_pointer (Some name.now))) }
{
    let mut name_text = Vec::new(alloc);
    add_quoted(alloc, name, &mut name_text)?;
    let Some((_quote, rest)) = name_text.as_slice().split_first() else {
        return Ok(());
    };
    text.extend_from_slice(b"\"/domains/")?;
    add_all_escaped(rest, text)?;
    Ok(())
}

/// Adds a place.
#[tactic(auto, using(crate::proofs::DomainLines::whole_pieces))]
fn add_pointer(alloc: Global, name: Option<&str>, text: &mut Vec<u8>) -> Result<(), AllocError>
    ensures { OnOk result (text.new.items ≡ text.old.items ++ quoted (domain_pointer (name_view name.entry))) }
{
    let Some(name) = name else {
        return text.extend_from_slice(b"\"/domains\"");
    };
    add_named(alloc, name, text)
}

/// Adds the line of a place.
#[tactic(auto, using(crate::proofs::DomainLines::place_pieces))]
fn add_line(alloc: Global, name: Option<&str>, text: &mut Vec<u8>) -> Result<(), AllocError>
    ensures { OnOk result (text.new.items ≡ text.old.items ++ ended (domain_line (name_view name.entry))) }
{
    text.extend_from_slice(b"{\"fault\":\"domain\",\"pointer\":")?;
    add_pointer(alloc, name, text)?;
    text.extend_from_slice(b"}\n")?;
    Ok(())
}

/// Adds how many places are not told, where some are not.
fn add_more(more: usize, text: &mut Vec<u8>) -> Result<(), AllocError>
    ensures { OnOk result (text.new.items ≡ text.old.items ++ flat_map ended (more_domains more)) }
{
    if more == 0 {
        return Ok(());
    }
    text.extend_from_slice(b"{\"fault\":\"domain\",\"more\":")?;
    add_number(more as u64, text)?;
    text.extend_from_slice(b"}\n")?;
    Ok(())
}

/// The first of these, as many as are told.
fn told_among<'a, 'b>(refused: &'b [Option<&'a str>]) -> &'b [Option<&'a str>]
    ensures { result.now ≡ take most_findings refused.now }
{
    if refused.len() <= MOST_PLACES {
        return refused;
    }
    let (first, _rest) = refused.split_at(MOST_PLACES);
    first
}

/// Adds the lines of these places.
fn add_lines(alloc: Global, names: &[Option<&str>], text: &mut Vec<u8>) -> Result<(), AllocError>
    ensures { OnOk result (text.new.items ≡ text.old.items ++ flat_map ended (map domain_line (name_views names.now))) }
{
    for name in names {
        add_line(alloc, *name, text)?;
    }
    Ok(())
}

/// Adds the lines of what can't be read.
pub(crate) fn add_domains(
    alloc: Global,
    refused: &[Option<&str>],
    text: &mut Vec<u8>,
) -> Result<(), AllocError>
    ensures { OnOk result (text.new.items ≡ text.old.items ++ flat_map ended (domain_lines (name_views refused.now))) }
{
    add_lines(alloc, told_among(refused), text)?;
    let more = refused.len().saturating_sub(MOST_PLACES);
    add_more(more, text)?;
    Ok(())
}
