//! What texts and numbers are in a page: laws about the definitions. They do nothing.

ghost use Rattle.std.specs.Prelude.{ℕ, ◌≡◌, ◌<◌, ◌≤◌, ◌/◌, ◌^◌, ◌++◌, true, List, codes, decimal};
ghost use Rattle.std.specs.List.{list_all};
ghost use Rattle.dc_page_text.specs.Text.{escaped, grouped, hundredths, is_harmless, last_three, millionths, number_from, tenths, thousandths};

/// No byte of a text is `<`, `>`, `"` or `'` as pages write it: it ends no element and no value of an attribute, and begins none.
pub fn no_text_breaks_out()
    ensures { (text : List ℕ) → list_all is_harmless (escaped text) ≡ true }
{}

/// The number that is read in what pages write of a number is that number.
pub fn no_number_changes()
    ensures whole { (n : ℕ) → n < 2 ^ 64 → number_from 1 0 (grouped n) ≡ n }
    ensures tenths { (n : ℕ) → n < 2 ^ 64 → number_from 10 0 (tenths n) ≡ n }
    ensures hundredths { (n : ℕ) → n < 2 ^ 64 → number_from 100 0 (hundredths n) ≡ n }
    ensures thousandths { (n : ℕ) → n < 2 ^ 64 → number_from 1000 0 (thousandths n) ≡ n }
    ensures millionths { (n : ℕ) → n < 2 ^ 64 → number_from 1000000 0 (millionths n) ≡ n }
{}

/// A number has its digits in groups of three from the right: below a thousand it is its digits; a greater one is its
/// thousands, a comma, and its last three digits.
pub fn digits_stand_in_threes()
    ensures small { (n : ℕ) → n < 1000 → grouped n ≡ decimal n }
    ensures great { (n : ℕ) → n < 2 ^ 64 → 1000 ≤ n → grouped n ≡ grouped (n / 1000) ++ codes "," ++ last_three n }
{}
