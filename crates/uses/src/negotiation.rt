//! MIME negotiation: the best of a list of accepted types for the type of a resource.

ghost use Rattle.std.specs.Prelude.{◌≡◌, map};
ghost use Rattle.uses.specs.Ranks.{IsBest, has_essence, rank_for};

use data_url::mime::Mime;

/// Returns whether an accepted type has this type and subtype, and no parameters.
fn is_essence(accepted: &Mime, type_: &str, subtype: &str) -> bool
    ensures { result ≡ has_essence type_.now subtype.now accepted.now }
{
    accepted.parameters.is_empty() && accepted.matches(type_, subtype)
}

/// Returns how well an accepted type fits a record: 4 where it is the same with its parameters, 3 where it has no
/// parameters and is the same type and subtype, 2 where it is `type/*`, 1 where it is `*/*`, and 0 where it does not.
fn rank_of(accepted: &Mime, mime: &Mime) -> u8
    ensures { result ≡ rank_for mime.now accepted.now }
{
    if accepted == mime {
        4
    } else if is_essence(accepted, &mime.type_, &mime.subtype) {
        3
    } else if is_essence(accepted, &mime.type_, "*") {
        2
    } else if is_essence(accepted, "*", "*") {
        1
    } else {
        0
    }
}

/// Returns the place of the best accepted type for a record: the first of the highest rank. The highest rank is the
/// same type with the same parameters in the same order, then comes the same type and subtype without parameters, then
/// `type/*`, and then `*/*`. An accepted type with parameters fits only the same type with the same parameters, `q`
/// included.
///
/// Returns None if no accepted type fits the record.
pub fn best(accepted: &[Mime], mime: &Mime) -> Option<usize>
    ensures { IsBest (map (rank_for mime.now) accepted.now) result }
{
    let mut best = None;
    let mut highest: u8 = 0;
    for i in 0..accepted.len() {
        let rank = rank_of(&accepted[i], mime);
        if highest < rank {
            highest = rank;
            best = Some(i);
        }
    }
    best
}
