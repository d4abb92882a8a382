// A second, simple implementation of the nine checks of a cache file.
use cache_reader::CacheDefect;

fn byte(bytes: &[u8], at: usize) -> usize {
    match bytes.get(at) {
        Some(byte) => usize::from(*byte),
        None => 0,
    }
}

fn number(bytes: &[u8], at: usize) -> usize {
    let mut number: usize = 0;
    for index in [3, 2, 1, 0] {
        let next = byte(bytes, at.saturating_add(index));
        number = number.saturating_mul(256).saturating_add(next);
    }
    number
}

fn is_ended(bytes: &[u8], at: usize) -> bool {
    for index in at..bytes.len() {
        if byte(bytes, index) == 0 {
            return true;
        }
    }
    false
}

fn sum(parts: &[usize]) -> usize {
    let mut sum: usize = 0;
    for part in parts {
        sum = sum.saturating_add(*part);
    }
    sum
}

fn entry_at(index: usize) -> usize {
    sum(&[48, index.saturating_mul(24)])
}

fn header(bytes: &[u8]) -> Option<CacheDefect> {
    if bytes.starts_with(b"ld.so-1.7.0") {
        return Some(CacheDefect::OldFormat);
    }
    if bytes.len() < 48 {
        return Some(CacheDefect::Short {
            len: bytes.len() as u64,
        });
    }
    if !bytes.starts_with(b"glibc-ld.so.cache1.1") {
        return Some(CacheDefect::BadMagic);
    }
    let flags = byte(bytes, 28);
    if flags % 4 == 1 || flags % 4 == 3 {
        return Some(CacheDefect::BadEndian {
            flags: flags as u64,
        });
    }
    let nlibs = number(bytes, 20);
    if sum(&[entry_at(nlibs), number(bytes, 24)]) > bytes.len() {
        return Some(CacheDefect::EntriesOutside {
            nlibs: nlibs as u64,
        });
    }
    None
}

fn entries(bytes: &[u8]) -> Option<CacheDefect> {
    for index in 0..number(bytes, 20) {
        let key = number(bytes, sum(&[entry_at(index), 4]));
        let value = number(bytes, sum(&[entry_at(index), 8]));
        let entry = index as u64;
        if key >= bytes.len() || value >= bytes.len() {
            return Some(CacheDefect::StringOutside { entry });
        }
        if !is_ended(bytes, key) || !is_ended(bytes, value) {
            return Some(CacheDefect::NoNul { entry });
        }
    }
    None
}

fn section_at(at: usize, index: usize) -> usize {
    sum(&[at, 8, index.saturating_mul(16)])
}

// The offset and the size of the first section with tag 1.
fn names(bytes: &[u8], at: usize) -> Option<(usize, usize)> {
    for index in 0..number(bytes, sum(&[at, 4])) {
        let section = section_at(at, index);
        if number(bytes, section) == 1 {
            let offset = number(bytes, sum(&[section, 8]));
            return Some((offset, number(bytes, sum(&[section, 12]))));
        }
    }
    None
}

fn is_bad_extension(bytes: &[u8], at: usize) -> bool {
    let count = number(bytes, sum(&[at, 4]));
    if at % 4 != 0 || sum(&[at, 8]) > bytes.len() || number(bytes, at) != 0xeaa42174 {
        return true;
    }
    if section_at(at, count) > bytes.len() {
        return true;
    }
    for index in 0..count {
        let section = section_at(at, index);
        let end = sum(&[
            number(bytes, sum(&[section, 8])),
            number(bytes, sum(&[section, 12])),
        ]);
        if end > bytes.len() {
            return true;
        }
    }
    let Some((offset, size)) = names(bytes, at) else {
        return false;
    };
    if offset % 4 != 0 || size % 4 != 0 {
        return true;
    }
    for index in 0..size / 4 {
        let place = sum(&[offset, index.saturating_mul(4)]);
        if !is_ended(bytes, number(bytes, place)) {
            return true;
        }
    }
    false
}

fn hwcaps(bytes: &[u8]) -> Option<CacheDefect> {
    let at = number(bytes, 32);
    let count = match names(bytes, at) {
        Some((_, size)) if at != 0 => size / 4,
        _ => 0,
    };
    for index in 0..number(bytes, 20) {
        let entry = entry_at(index);
        let is_named = byte(bytes, sum(&[entry, 23])) / 64 % 2 == 1;
        if is_named && number(bytes, sum(&[entry, 16])) >= count {
            return Some(CacheDefect::BadHwcap {
                entry: index as u64,
            });
        }
    }
    None
}

/// The first defect of a file.
pub(crate) fn plain_defect(bytes: &[u8]) -> Option<CacheDefect> {
    if let Some(defect) = header(bytes) {
        return Some(defect);
    }
    if let Some(defect) = entries(bytes) {
        return Some(defect);
    }
    let at = number(bytes, 32);
    if at != 0 && is_bad_extension(bytes, at) {
        return Some(CacheDefect::BadExtension { offset: at as u64 });
    }
    hwcaps(bytes)
}
