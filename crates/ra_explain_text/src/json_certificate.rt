//! The members of the JSON object that say why no order explains a violation.
ghost use Rattle.std.specs.Prelude.{◌≡◌, ◌++◌, OnOk};
ghost use Rattle.ra_explain_text.specs.Certificates as certificates;
ghost use Rattle.ra_explain_text.specs.Certificates.{certificate_text};

use crate::json_conflict::put_label_line;
use crate::layout::put;
use ra_another_order::SecondOpinion;
use ra_explain::{Because, Claim, Places};
use ra_history_lines::number::{put_number, put_numbered};
use ra_labels::NoMemory;

/// Appends the member with the claims that show that no order explains the violation, if it is known whether one does.
///
/// # Errors
///
/// `NoMemory` if an allocation fails.
pub fn put_certificate(
    out: &mut Vec<u8>,
    opinion: &Option<SecondOpinion>,
    places: &Places,
    claims: &[Claim],
) -> Result<(), NoMemory>
    ensures { OnOk result (out.new.items
        ≡ out.old.items ++ certificate_text opinion.now places.now claims.now) }
{
    match opinion {
        Some(_) => put_member(out, places, claims),
        None => Ok(()),
    }
}

fn put_member(out: &mut Vec<u8>, places: &Places, claims: &[Claim]) -> Result<(), NoMemory>
    ensures { OnOk result (out.new.items
        ≡ out.old.items ++ certificates.certificate_member places.now claims.now) }
{
    put(out, ",\"certificate\":[")?;
    put_claims(out, places, claims)?;
    put(out, "]")
}

fn put_claims(out: &mut Vec<u8>, places: &Places, claims: &[Claim]) -> Result<(), NoMemory>
    ensures { OnOk result (out.new.items ≡ out.old.items ++ certificates.claims_value places.now claims.now) }
{
    match claims.split_first() {
        None => Ok(()),
        Some((first, more)) => {
            put_claim(out, places, first)?;
            put_more_claims(out, places, more)
        }
    }
}

fn put_more_claims(out: &mut Vec<u8>, places: &Places, claims: &[Claim]) -> Result<(), NoMemory>
    ensures { OnOk result (out.new.items ≡ out.old.items ++ certificates.more_claims places.now claims.now) }
{
    for claim in claims {
        out.push(b',')?;
        put_claim(out, places, claim)?;
    }
    Ok(())
}

fn put_claim(out: &mut Vec<u8>, places: &Places, claim: &Claim) -> Result<(), NoMemory>
    ensures { OnOk result (out.new.items ≡ out.old.items ++ certificates.claim_value places.now claim.now) }
{
    put_head(out, claim)?;
    put_lists(out, claim)?;
    put_place(out, places, claim)
}

fn put_head(out: &mut Vec<u8>, claim: &Claim) -> Result<(), NoMemory>
    ensures { OnOk result (out.new.items ≡ out.old.items ++ certificates.claim_head claim.now) }
{
    put(out, "{\"because\":\"")?;
    put(out, because_word(claim.because))?;
    put(out, "\",\"before\":")?;
    put_optional(out, claim.before)
}

fn put_lists(out: &mut Vec<u8>, claim: &Claim) -> Result<(), NoMemory>
    ensures { OnOk result (out.new.items ≡ out.old.items ++ certificates.claim_lists claim.now) }
{
    put(out, ",\"after\":[")?;
    put_listed(out, &claim.after)?;
    put(out, "],\"elements\":[")?;
    put_listed(out, &claim.elements)
}

fn put_place(out: &mut Vec<u8>, places: &Places, claim: &Claim) -> Result<(), NoMemory>
    ensures { OnOk result (out.new.items ≡ out.old.items ++ certificates.claim_place places.now claim.now) }
{
    put_numbered(out, b"],\"label\":", claim.label)?;
    put_label_line(out, places, claim.label)?;
    put(out, "}")
}

fn because_word(because: Because) -> &'static str
    ensures { result.now ≡ certificates.because_word because }
{
    match because {
        Because::Sees => "sees",
        Because::Needs => "needs",
        Because::Reads => "reads",
        Because::Repeats => "repeats",
        Because::Root => "root",
        Because::Absent => "absent",
        Because::Open => "open",
        Because::Listed => "listed",
        Because::Unlisted => "unlisted",
        Because::Below => "below",
        Because::Unseen => "unseen",
    }
}

// Appends the number, or null if there is none.
fn put_optional(out: &mut Vec<u8>, number: Option<u32>) -> Result<(), NoMemory>
    ensures { OnOk result (out.new.items ≡ out.old.items ++ certificates.number_value number) }
{
    match number {
        Some(number) => put_number(out, number),
        None => put(out, "null"),
    }
}

/// Appends the numbers, separated by commas.
///
/// # Errors
///
/// `NoMemory` if an allocation fails.
pub fn put_listed(out: &mut Vec<u8>, numbers: &[u32]) -> Result<(), NoMemory>
    ensures { OnOk result (out.new.items ≡ out.old.items ++ certificates.numbers_value numbers.now) }
{
    match numbers.split_first() {
        None => Ok(()),
        Some((first, more)) => {
            put_number(out, *first)?;
            put_more_numbers(out, more)
        }
    }
}

fn put_more_numbers(out: &mut Vec<u8>, numbers: &[u32]) -> Result<(), NoMemory>
    ensures { OnOk result (out.new.items ≡ out.old.items ++ certificates.more_numbers numbers.now) }
{
    for number in numbers {
        out.push(b',')?;
        put_number(out, *number)?;
    }
    Ok(())
}
