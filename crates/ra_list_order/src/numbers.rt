//! Arrays of numbers indexed by element. An element past the end has the number 0, which says that it has none.
ghost use Rattle.std.specs.Prelude.{◌≡◌, ◌+◌, ◌<◌, ◌^◌, ℕ, get_or, vec_len, IfOk, OnOk};
ghost use Rattle.ra_list_order.specs.Numbers.{IsSetTo, number_in};

use ra_labels::NoMemory;

/// Returns the number of the element, or 0.
pub fn number_at(numbers: &Vec<u32>, element: u32) -> u32
    ensures { result ≡ number_in numbers.now.items element }
{
    match numbers.get(element as usize) {
        Some(number) => *number,
        None => 0,
    }
}

/// Makes the array long enough for the element. The number of each element stays.
///
/// # Errors
///
/// `NoMemory` if allocation fails.
///
/// # Complexity
///
/// O(1) amortized for each element up to this one.
pub fn extend_to(numbers: &mut Vec<u32>, element: u32) -> Result<(), NoMemory>
    ensures long { OnOk result (element < vec_len numbers.new) }
    ensures same { (x : ℕ) → number_in numbers.new.items x ≡ number_in numbers.old.items x }
{
    let index = element as usize;
    if numbers.len() <= index {
        numbers.resize(index + 1, 0)?;
    }
    Ok(())
}

/// Sets the number of the element, for which the array is long enough. Does not allocate.
pub fn set_number(numbers: &mut Vec<u32>, element: u32, number: u32)
    requires { element < vec_len numbers.old }
    ensures set { IsSetTo element number (number_in numbers.old.items) (number_in numbers.new.items) }
    ensures len { vec_len numbers.new ≡ vec_len numbers.old }
{
    numbers[element as usize] = number;
}

/// Returns the index behind `count` others as a `u32`. The number of its item, the index plus one, fits a `u32` too.
///
/// # Errors
///
/// `NoMemory` if that number would be 2^32 or greater.
pub fn next_index(count: usize) -> Result<u32, NoMemory>
    ensures index { IfOk result (λ index. index ≡ count) }
    ensures fits { IfOk result (λ index. index + 1 < 2 ^ 32) }
{
    if count >= u32::MAX as usize {
        return Err(NoMemory);
    }
    Ok(count as u32)
}
