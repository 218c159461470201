// A second reading of the format, written on its own for the tests: it only counts and refuses.
// It goes by places in the file, which it keeps by hand, as the format says a file is read.
// It says refusals by the numbers of docs/REFUSALS.md, so that it has no type of the first reading.
ghost use Rattle.std.specs.Prelude.{◌+◌, ◌<◌, ◌≤◌, length, IfOk};

fn byte(file: &[u8], i: usize) -> usize {
    file.get(i).map_or(0, |b| *b as usize)
}

// Whether operands of `n` bytes are as long as a code asks; none where the code is not known.
fn long_enough(code: usize, n: usize, first: usize) -> Option<bool> {
    match code {
        1 => Some(n > 0 && n % 2 == 0),
        2 => Some(n == 0),
        3 => Some(n == 1),
        4..=7 => Some(n == 4),
        8 => Some(n == 17),
        10 | 11 => Some(n == 6),
        12..=15 => Some(n == 9),
        16 => Some(n == first.saturating_mul(8).saturating_add(1)),
        17 | 20 => Some(n == 24),
        21 | 28 => Some(n == 16),
        22 => Some(n > 0 && n % 17 == 0),
        30 => Some(n == 12),
        31 => Some(n == 18),
        _ => None,
    }
}

fn types_known(file: &[u8], at: usize, n: usize) -> bool {
    (0..n / 17).all(|i| {
        let kind = byte(file, at.saturating_add(i.saturating_mul(17)));
        kind == 0 || kind == 2
    })
}

fn in_range(code: usize, file: &[u8], at: usize, n: usize) -> bool {
    let a = byte(file, at);
    let b = byte(file, at.saturating_add(1));
    let end = at.saturating_add(n);
    match code {
        1 => byte(file, end.saturating_sub(2)) == 0 && byte(file, end.saturating_sub(1)) == 0,
        3 => a < 2,
        8 => a < 16,
        10 | 11 => a < 64 && b < 64,
        12..=15 => a < 64,
        16 => a <= 8,
        22 => types_known(file, at, n),
        31 => (a == 0 || a == 2) && (b < 64 || b == 255),
        _ => true,
    }
}

// The bytes of the record at a place, or the number of its refusal.
fn record(file: &[u8], at: usize) -> Result<usize, u8>
    ensures { IfOk result (λ size. (0 < size) × (at + size ≤ length file.now)) }
{
    let left = file.len().saturating_sub(at);
    let said = byte(file, at)
        .saturating_mul(256)
        .saturating_add(byte(file, at.saturating_add(1)));
    if left < 3 || said == 0 || left - 2 < said {
        return Err(22);
    }
    let code = byte(file, at.saturating_add(2));
    let operands = at.saturating_add(3);
    if !long_enough(code, said - 1, byte(file, operands)).ok_or(23u8)? {
        return Err(24);
    }
    if !in_range(code, file, operands, said - 1) {
        return Err(25);
    }
    Ok(said + 2)
}

// How many records a file has, or the number and the place of its first refusal.
pub(crate) fn read(file: &[u8]) -> Result<usize, (u8, usize)> {
    if file.len() > 65536 || byte(file, 0) != 1 {
        return Err((21, 0));
    }
    let mut at: usize = 1;
    let mut count = 0;
    while at < file.len() {
        at += record(file, at).map_err(|number| (number, at))?;
        count += 1;
    }
    Ok(count)
}
