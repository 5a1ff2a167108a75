// What is printed of the registers, and of a refused text.

#![tactic(auto)]

ghost use Rattle.std.specs.Prelude.{◌≡◌, ◌++◌, IfOk, string_bytes};
ghost use Rattle.listing.specs.Listing.{fault_text, listing, register_line};

use answers::{TextFault, Told};
use std::alloc::{AllocError, Global};

// Writes the line of a register, none where it holds null.
fn write_register(text: &mut String, register: usize, told: Told) -> Result<(), AllocError>
    ensures { IfOk result (λ _. string_bytes text.new ≡ string_bytes text.old ++ register_line register told) }
{
    match told {
        Told::Null => Ok(()),
        told => writeln!(text, "reg={register} value={told}"),
    }
}

/// A line for each register that does not hold null: its number and what it holds.
#[tactic(auto, using(crate::proofs::Rising::listing_more, crate::proofs::Rising::listing_all))]
pub fn listing_of(heap: Global, told: &[Told]) -> Result<String, AllocError>
    ensures { IfOk result (λ s. string_bytes s ≡ listing told.now) }
{
    let mut text = String::new(heap);
    for (register, held) in told.iter().enumerate() {
        write_register(&mut text, register, *held)?;
    }
    Ok(text)
}

/// The line that names the refused line of a text, and the refusal by its number.
#[tactic(auto, using(crate::proofs::Rising::fault_ended))]
pub fn fault_line(heap: Global, fault: TextFault) -> Result<String, AllocError>
    ensures { IfOk result (λ s. string_bytes s ≡ fault_text fault) }
{
    format!(in heap; "{fault}\n")
}
