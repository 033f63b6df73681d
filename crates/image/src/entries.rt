// The grants of a file, entry by entry.
ghost use Rattle.std.specs.Prelude.{ℕ, ◌+◌, ◌*◌, ◌<◌, ◌^◌, List, length, MatchResult, ⊤};
ghost use Rattle.image.specs.Entries.{IsKey, IsRefused};
ghost use Rattle.image.specs.Files.{count_of_grants, start_of_grants};
ghost use Rattle.image.specs.Parts.{IsGrants, part_bytes, part_place};
ghost use Rattle.image.specs.Reading.{Clear, First, Faultless};

use crate::fault::FileFault;
use crate::part::Part;

// The key of an entry: first its bank and its spare byte are tried, then that the key is not below the least that may come.
fn try_entry(entry: [u8; 4], place: usize, least_key: u16) -> Result<u16, FileFault>
    ensures bound { MatchResult result (λ key. key < 512) (λ _. ⊤) }
    ensures value { MatchResult result (λ key. IsKey entry 0 least_key key) (λ f. IsRefused entry 0 place least_key f) }
{
    let [bank, port, _, spare] = entry;
    if bank > 1 || spare != 0 {
        return Err(FileFault::Entry { place });
    }
    let key = u16::from_be_bytes([bank, port]);
    if key < least_key {
        return Err(FileFault::Order { place });
    }
    Ok(key)
}

// Tries the entries of a grant part one by one.
pub(crate) fn try_entries(grants: Part) -> Result<(), FileFault>
    requires { part_place grants + length (part_bytes grants) < 2 ^ 64 }
    ensures { (file : List ℕ) → Clear file 8 → IsGrants file (start_of_grants file) (4 * count_of_grants file) grants.entry → MatchResult result (λ _. Faultless file) (λ f. First file f) }
{
    let start = grants.place();
    let (entries, _) = grants.bytes().as_chunks::<4>();
    let mut least_key = 0;
    for (k, entry) in entries.iter().enumerate() {
        let key = try_entry(*entry, start + 4 * k, least_key)?;
        least_key = key + 1;
    }
    Ok(())
}
