// Document 01's check of a vocabulary, its records in tables: offsets, result kinds, place maps and numbers of places, and which
// kinds have complete situations.
#![tactic(auto)]

ghost use Rattle.std.specs.Prelude.{◌≡◌, ◌+◌, ◌<◌, ◌≤◌, length, get_or};
ghost use Rattle.wire.specs.Checking.{VocabularyPromise};
ghost use Rattle.wire.specs.CheckComputed.{vocabulary_reply};
ghost use Rattle.wire.specs.VocabularyLines.{byte_at};
ghost use Rattle.signature.specs.Answers.{vocabulary_numbers};
ghost use Rattle.signature.specs.Tables.{LoadedFrom, CountedFrom};
ghost use Rattle.signature.specs.Settled.{Settles, SettledFrom};
ghost use Rattle.signature.specs.Loading.{KindsRead, RecordRead, Sized, WordsLoaded, WordsCounted, Markable, Covers, FilledCounted, PlacesInside, PlacesCovered, Round, FirstMissing, Searched, MovesWords, Prepared};

// Why a vocabulary is refused, with the place where it is not fixed: document 01, lines 1 to 5.
#[derive(Clone, Copy)]
pub enum VocabularyRefusal {
    Head,
    WordCount,
    Ends(usize),
    NoSuchKind(usize),
    Continues(usize),
}

// Reads n kind bytes from an offset on.
fn read_kinds(v: &[u8], at: usize, n: usize, kinds: u8) -> Result<usize, VocabularyRefusal>
    requires { at ≤ length v.now }
    ensures { KindsRead v.now at n kinds result }
{
    for i in 0..n {
        if v.len() <= at + i {
            return Err(VocabularyRefusal::Ends(v.len()));
        }
        if kinds <= v[at + i] {
            return Err(VocabularyRefusal::NoSuchKind(at + i));
        }
    }
    Ok(n)
}

// Reads the record at an offset, and counts the word's places.
fn read_word(v: &[u8], at: usize, kinds: u8) -> Result<usize, VocabularyRefusal>
    requires { at ≤ length v.now }
    ensures { RecordRead v.now at kinds result }
{
    if v.len() <= at {
        return Err(VocabularyRefusal::Ends(v.len()));
    }
    if kinds <= v[at] {
        return Err(VocabularyRefusal::NoSuchKind(at));
    }
    if v.len() - at < maps::NODE {
        return Err(VocabularyRefusal::Ends(v.len()));
    }
    let map = maps::read(v, at + 1);
    if map == 0 {
        return Ok(0);
    }
    let places = maps::count(map);
    read_kinds(v, at + maps::NODE, places as usize, kinds)
}

// Reads all records into the tables, and sees that nothing follows the last. An array that is lent on as a slice is known by
// its length. Kept: the tables apart from one another, as `load` is lent three of them and promises the entries of each, old and new.
fn read_words(
    v: &[u8],
    words: usize,
    kinds: u8,
    offsets: &mut [u16],
    results: &mut [u8],
    maps: &mut [u8],
    counts: &mut [u8],
) -> Result<(), VocabularyRefusal>
    requires in_bounds { 2 ≤ length v.now }
    requires kinds_value { kinds ≡ byte_at v.now 0 }
    requires words_bound { words ≤ 96 }
    requires sized { Sized offsets.old results.old maps.old counts.old }
    ensures words_loaded { WordsLoaded v.now words offsets.old results.old maps.old offsets.new results.new maps.new result }
    ensures words_counted { WordsCounted v.now words counts.old counts.new }
{
    let mut at = 2;
    for w in 0..words {
        let places = read_word(v, at, kinds)?;
        offsets[w] = at as u16;
        results[w] = v[at];
        maps[w] = maps::read(v, at + 1);
        counts[w] = places as u8;
        at = at + maps::NODE + places;
    }
    if at < v.len() {
        return Err(VocabularyRefusal::Continues(at));
    }
    Ok(())
}

// Whether each of n kind bytes from an offset on is marked.
fn covered(v: &[u8], at: usize, n: usize, marked: &[bool; 16]) -> bool
    requires n_in_bounds { at + n ≤ length v.now }
    requires markable { Markable v.now at n }
    ensures { Covers v.now at n marked.now result }
{
    for i in 0..n {
        if !marked[v[at + i] as usize] {
            return false;
        }
    }
    true
}

// Whether the kind of each place of a word is marked. A word without places needs no look at its record.
fn places_covered<'a>(
    v: &[u8],
    w: usize,
    offsets: &'a [u16; 96],
    counts: &'a [u8; 96],
    marked: &[bool; 16],
) -> bool
    requires w_bound { w < 96 }
    requires places_inside { PlacesInside v.now (get_or offsets.now w 0) (get_or counts.now w 0) }
    ensures { PlacesCovered v.now (get_or offsets.now w 0) (get_or counts.now w 0) marked.now result }
{
    let n = counts[w] as usize;
    n == 0 || covered(v, offsets[w] as usize + maps::NODE, n, marked)
}

// One round: marks the result kind of every word whose places' kinds are marked, and says whether one was marked. A word of a
// marked kind adds nothing. Kept: the tables apart from one another, here and in `empty_kind`; `move_words` knows the same of
// the table that it changes in place of `results`, and `settle` is told a stronger fact, so that one struct would not serve them.
fn mark_round<'a>(
    v: &[u8],
    words: usize,
    offsets: &'a [u16; 96],
    results: &'a [u8; 96],
    counts: &'a [u8; 96],
    marked: &mut [bool; 16],
) -> bool
    requires words_bound { words ≤ 96 }
    requires v_bound { byte_at v.now 0 ≤ 16 }
    requires filled_counted { FilledCounted v.now words offsets.now results.now counts.now }
    ensures { Round v.now words marked.old marked.new result }
{
    let mut changed = false;
    for w in 0..words {
        let kind = results[w] as usize;
        if !marked[kind] && places_covered(v, w, offsets, counts, marked) {
            marked[kind] = true;
            changed = true;
        }
    }
    changed
}

// The lowest kind that is not marked.
fn first_missing(kinds: usize, marked: &[bool; 16]) -> Option<usize>
    requires { kinds ≤ 16 }
    ensures { FirstMissing kinds marked.now result }
{
    marked[..kinds].iter().position(|&m| !m)
}

// The lowest kind without complete situations: as many rounds as there are kinds mark all others. A round takes no
// mark away, so the rounds end where every kind is marked, or one marks nothing.
fn empty_kind<'a>(
    v: &[u8],
    kinds: usize,
    words: usize,
    offsets: &'a [u16; 96],
    results: &'a [u8; 96],
    counts: &'a [u8; 96],
    marked: &mut [bool; 16],
) -> Option<usize>
    requires words_bound { words ≤ 96 }
    requires kinds_bound { kinds ≤ 16 }
    requires kinds_value { kinds ≡ byte_at v.now 0 }
    requires filled_counted { FilledCounted v.now words offsets.now results.now counts.now }
    ensures { Searched v.now words marked.new result }
{
    *marked = [false; 16];
    for _round in 0..kinds {
        let changed = mark_round(v, words, offsets, results, counts, marked);
        let missing = first_missing(kinds, marked);
        if missing.is_none() || !changed {
            return missing;
        }
    }
    first_missing(kinds, marked)
}

// Gives every word one of whose places' kinds is not marked the kind e.
fn move_words<'a>(
    v: &[u8],
    words: usize,
    e: u8,
    offsets: &'a [u16; 96],
    counts: &'a [u8; 96],
    marked: &[bool; 16],
    settled: &mut [u8],
)
    requires settled_len { length settled.old ≡ 96 }
    requires words_bound { words ≤ 96 }
    requires v_bound { byte_at v.now 0 ≤ 16 }
    requires filled_counted { FilledCounted v.now words offsets.now settled.old counts.now }
    ensures { MovesWords v.now words e marked.now settled.old settled.new }
{
    for w in 0..words {
        if !places_covered(v, w, offsets, counts, marked) {
            settled[w] = e;
        }
    }
}

// Works out which kinds have complete situations, and fills a table of result kinds for listings: every word that no
// complete situation has is given the lowest kind without any.
fn settle<'a>(
    v: &[u8],
    kinds: usize,
    words: usize,
    offsets: &'a [u16; 96],
    results: &'a [u8; 96],
    counts: &'a [u8; 96],
    settled: &mut [u8; 96],
) -> Option<usize>
    requires words_bound { words ≤ 96 }
    requires kinds_bound { kinds ≤ 16 }
    requires kinds_value { kinds ≡ byte_at v.now 0 }
    requires prepared { Prepared v.now words offsets.now results.now counts.now }
    ensures { Settles v.now words results.now settled.new result }
{
    let mut marked = [false; 16];
    *settled = *results;
    let missing = empty_kind(v, kinds, words, offsets, results, counts, &mut marked);
    if let Some(e) = missing {
        move_words(v, words, e as u8, offsets, counts, &marked, settled);
    }
    missing
}

// Reads a vocabulary into the lent tables, one of which has the number of each word's places, or says why it is refused. Each
// word whose record is in order has its entry, up to the first that is not; the entries behind are left as they were.
fn load_counted(
    v: &[u8],
    offsets: &mut [u16; 96],
    results: &mut [u8; 96],
    maps: &mut [u8; 96],
    counts: &mut [u8; 96],
) -> Result<(), VocabularyRefusal>
    ensures loaded_from { LoadedFrom v.now offsets.old results.old maps.old offsets.new results.new maps.new result }
    ensures counted_from { CountedFrom v.now counts.old counts.new result }
{
    if v.len() < 2 {
        return Err(VocabularyRefusal::Head);
    }
    let kinds = v[0];
    let words = v[1] as usize;
    if kinds < 1 || 16 < kinds {
        return Err(VocabularyRefusal::Head);
    }
    if words < 1 || 96 < words {
        return Err(VocabularyRefusal::WordCount);
    }
    read_words(v, words, kinds, offsets, results, maps, counts)
}

// Reads a vocabulary into the lent tables, for calls that list nothing.
pub fn load(
    v: &[u8],
    offsets: &mut [u16; 96],
    results: &mut [u8; 96],
    maps: &mut [u8; 96],
) -> Result<(), VocabularyRefusal>
    ensures { LoadedFrom v.now offsets.old results.old maps.old offsets.new results.new maps.new result }
{
    let mut counts = [0u8; 96];
    load_counted(v, offsets, results, maps, &mut counts)
}

// Reads a vocabulary into the lent tables, works out which of its kinds have complete situations, and fills the table by which
// listings go: the words' result kinds, but that every word which no complete situation has is given the lowest kind without
// any. A refusal leaves that table as it was. Each word's places are counted once, as its record is read.
pub fn load_settled(
    v: &[u8],
    offsets: &mut [u16; 96],
    results: &mut [u8; 96],
    maps: &mut [u8; 96],
    settled: &mut [u8; 96],
) -> Result<Option<usize>, VocabularyRefusal>
    ensures { SettledFrom v.now offsets.old results.old maps.old settled.old offsets.new results.new maps.new settled.new result }
{
    let mut counts = [0u8; 96];
    load_counted(v, offsets, results, maps, &mut counts)?;
    let kinds = usize::from(v[0]);
    let words = usize::from(v[1]);
    Ok(settle(v, kinds, words, offsets, results, &counts, settled))
}

// Checks a vocabulary.
pub fn check_vocabulary(vocabulary: &[u8]) -> Result<(), VocabularyRefusal>
    ensures vocabulary_promise { VocabularyPromise vocabulary.now (vocabulary_numbers result) }
    ensures result_value { vocabulary_numbers result ≡ vocabulary_reply vocabulary.now }
{
    let mut offsets = [0u16; 96];
    let mut results = [0u8; 96];
    let mut maps = [0u8; 96];
    load(vocabulary, &mut offsets, &mut results, &mut maps)
}
