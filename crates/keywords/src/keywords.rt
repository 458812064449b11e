// Whether a bareword is a keyword.
ghost use Rattle.std.specs.Prelude.{◌≡◌, ◌≤◌, ◌<◌, true, length, get_or};
ghost use mathlib.Core.List.{flatten};
ghost use Rattle.text.specs.Text.{upper, says};
ghost use Rattle.keywords.specs.Keywords.{is_keyword};
ghost use Rattle.keywords.specs.inner.KeywordTable.{shortest, longest, cells, Lent, cell_start, Folds, letters, keywords_with};

// The words end to end, those of two bytes first: a word is looked for only among words of its length.
pub const KEYWORDS: [u8; 1347] = *b"\
    ASBYIDIFINISONORTO\
    ADDALLANDANYASCDIVDNSENDFORKEYMAXMINMODNOTROWSETTTLUSE\
    ANTIASOFCASECASTCUBEDESCDROPELSEFILLFLATFROMFULLHOSTINTOJOINKILLLASTLEFTLIKELIVELOGSMARKMOVENULL\
    OVERPARTPLANROLEROWSSEMISETSSHOWSKIPSTEPSTOPSYNCTESTTHENTIESTREETRUETYPEUSERVIEWWHENWITH\
    AFTERALIASALTERARRAYASYNCBEGINCACHECHECKCLEARCODECCROSSDISKSEMPTYFALSEFETCHFINALFIRSTFLUSHGRANT\
    GROUPILIKEINDEXINNERKEYEDLIMITLOCALMOVESNULLSORDEROUTERQUERYQUOTARANGERESETRIGHTSENDSSTARTTABLE\
    UNIONUSINGWHERE\
    ASSUMEATTACHBACKUPCOLUMNCOMMITCONFIGCREATEDELETEDETACHDIRECTENGINEEXCEPTEXISTSFILTERFORMATFREEZE\
    GLOBALGRANTSGROUPSHASHEDHAVINGIGNOREINSERTISNULLLAYOUTMERGESMODELSMODIFYOFFSETOPTIONPOLICYRELOAD\
    RENAMEREVOKEROLLUPSAMPLESELECTSOURCESYNTAXSYSTEMTABLESTOTALSUNDROPUPDATEVALUESWINDOW\
    BETWEENCLEANUPCLUSTERCOLUMNSCOMMENTCOMPLEXCURRENTDEFAULTENGINESEXPLAINFETCHESNATURALPRIMARY\
    PROFILEQUALIFYREPLACEREPLICARESPECTRESTORESENDINGSETTING\
    COMPILEDDATABASEDESCRIBEDISTINCTESTIMATEEXCHANGEFUNCTIONGROUPINGINTERVALLIFETIMEMUTATIONOPTIMIZE\
    OVERRIDEPIPELINEPOPULATEPREWHEREREPLICASROLLBACKSETTINGSTRUNCATEUNFREEZE\
    DATABASESEPHEMERALFOLLOWINGFUNCTIONSINJECTIVEINTERSECTPARTITIONPRECEDINGRECURSIVETEMPORARY\
    UNBOUNDED\
    CONSTRAINTDICTIONARYIDENTIFIEDPRIVILEGESPROJECTIONREPLICATED\
    DEDUPLICATEDISTRIBUTEDGRANULARITYINTERPOLATEMATERIALIZEPERMANENTLYPROCESSLISTTRANSACTION\
    DICTIONARIESHIERARCHICALMATERIALIZEDUNCOMPRESSED";

// The fewest and the most bytes that a keyword has.
const SHORTEST: usize = 2;

const LONGEST: usize = 12;

// A row of starts: one for each first letter, A to Z, and the end.
const ROW: usize = 27;

// Where the words of each length start, a row a length, the shortest first. A start is two bytes, the low one first.
pub type Starts = [u8; 594];

pub const STARTS: Starts = *b"\
    \x00\x00\x02\x00\x04\x00\x04\x00\x04\x00\x04\x00\x04\x00\x04\x00\x04\x00\x0c\x00\x0c\x00\x0c\x00\x0c\x00\x0c\x00\
    \x0c\x00\x10\x00\x10\x00\x10\x00\x10\x00\x10\x00\x12\x00\x12\x00\x12\x00\x12\x00\x12\x00\x12\x00\x12\x00\
    \x12\x00\x21\x00\x21\x00\x21\x00\x27\x00\x2a\x00\x2d\x00\x2d\x00\x2d\x00\x2d\x00\x2d\x00\x30\x00\x30\x00\x39\x00\
    \x3c\x00\x3c\x00\x3c\x00\x3c\x00\x3f\x00\x42\x00\x45\x00\x48\x00\x48\x00\x48\x00\x48\x00\x48\x00\x48\x00\
    \x48\x00\x50\x00\x50\x00\x5c\x00\x64\x00\x68\x00\x78\x00\x78\x00\x7c\x00\x80\x00\x84\x00\x88\x00\x9c\x00\xa4\x00\
    \xa8\x00\xac\x00\xb4\x00\xb4\x00\xbc\x00\xd8\x00\xf0\x00\xf4\x00\xf8\x00\x00\x01\x00\x01\x00\x01\x00\x01\
    \x00\x01\x19\x01\x1e\x01\x37\x01\x3c\x01\x41\x01\x5a\x01\x64\x01\x64\x01\x73\x01\x73\x01\x78\x01\x82\x01\x87\x01\
    \x8c\x01\x96\x01\x96\x01\xa0\x01\xaf\x01\xb9\x01\xbe\x01\xc8\x01\xc8\x01\xcd\x01\xcd\x01\xcd\x01\xcd\x01\
    \xcd\x01\xd9\x01\xdf\x01\xf7\x01\x09\x02\x1b\x02\x2d\x02\x3f\x02\x4b\x02\x5d\x02\x5d\x02\x5d\x02\x63\x02\x75\x02\
    \x75\x02\x81\x02\x87\x02\x87\x02\x9f\x02\xbd\x02\xc9\x02\xd5\x02\xdb\x02\xe1\x02\xe1\x02\xe1\x02\xe1\x02\
    \xe1\x02\xe1\x02\xe8\x02\x12\x03\x19\x03\x27\x03\x2e\x03\x2e\x03\x2e\x03\x2e\x03\x2e\x03\x2e\x03\x2e\x03\x2e\x03\
    \x35\x03\x35\x03\x43\x03\x4a\x03\x66\x03\x74\x03\x74\x03\x74\x03\x74\x03\x74\x03\x74\x03\x74\x03\x74\x03\
    \x74\x03\x74\x03\x74\x03\x7c\x03\x94\x03\xa4\x03\xac\x03\xb4\x03\xb4\x03\xbc\x03\xbc\x03\xbc\x03\xc4\x03\xcc\x03\
    \xcc\x03\xdc\x03\xf4\x03\xf4\x03\x04\x04\x0c\x04\x14\x04\x1c\x04\x1c\x04\x1c\x04\x1c\x04\x1c\x04\x1c\x04\
    \x1c\x04\x1c\x04\x1c\x04\x1c\x04\x25\x04\x2e\x04\x40\x04\x40\x04\x40\x04\x52\x04\x52\x04\x52\x04\x52\x04\x52\x04\
    \x52\x04\x52\x04\x64\x04\x64\x04\x6d\x04\x6d\x04\x76\x04\x7f\x04\x7f\x04\x7f\x04\x7f\x04\x7f\x04\x7f\x04\
    \x7f\x04\x7f\x04\x7f\x04\x89\x04\x93\x04\x93\x04\x93\x04\x93\x04\x93\x04\x9d\x04\x9d\x04\x9d\x04\x9d\x04\x9d\x04\
    \x9d\x04\x9d\x04\xb1\x04\xb1\x04\xbb\x04\xbb\x04\xbb\x04\xbb\x04\xbb\x04\xbb\x04\xbb\x04\xbb\x04\xbb\x04\
    \xbb\x04\xbb\x04\xbb\x04\xbb\x04\xd1\x04\xd1\x04\xd1\x04\xdc\x04\xdc\x04\xe7\x04\xe7\x04\xe7\x04\xe7\x04\xf2\x04\
    \xf2\x04\xf2\x04\x08\x05\x08\x05\x08\x05\x08\x05\x13\x05\x13\x05\x13\x05\x13\x05\x13\x05\x13\x05\x13\x05\
    \x13\x05\x13\x05\x13\x05\x13\x05\x1f\x05\x1f\x05\x1f\x05\x1f\x05\x2b\x05\x2b\x05\x2b\x05\x2b\x05\x2b\x05\x37\x05\
    \x37\x05\x37\x05\x37\x05\x37\x05\x37\x05\x37\x05\x37\x05\x43\x05\x43\x05\x43\x05\x43\x05\x43\x05\x43\x05";

// Start i of the rows. By `from_le_bytes` the look at a word takes a third as many instructions more, and the class of a token misses its bar.
fn cell_start(starts: &Starts, i: usize) -> usize
    requires { i < cells }
    ensures { result ≡ cell_start starts.now i }
{
    usize::from(starts[2 * i]) + 256 * usize::from(starts[2 * i + 1])
}

// Clears the bit by which the cases of a letter differ: beside a letter, and only there, the result stands in for the byte's upper case.
fn cleared(b: u8) -> u8
    ensures { Folds b result }
{
    b & 223
}

// A text is the upper-case word of its length and first letter, in any case. Most words part at the second letter.
fn spells(word: &[u8], text: &[u8]) -> bool
    requires { (letters word.now ≡ true) × (length word.now ≡ length text.now) × (shortest ≤ length text.now)
        × (get_or word.now 0 0 ≡ upper (get_or text.now 0 0)) }
    ensures { result ≡ says word.now text.now }
{
    if cleared(text[1]) != word[1] {
        return false;
    }
    let mut i = 2;
    // While, not for: an iterator over the two slices costs the class of a token its bar of instructions.
    while i < text.len() {
        if cleared(text[i]) != word[i] {
            return false;
        }
        i += 1;
    }
    true
}

// The words of n bytes that begin with a letter, end to end.
fn group<'a>(words: &'a [u8], starts: &Starts, n: usize, first: u8) -> &'a [u8]
    requires { Lent words.now starts.now × (shortest ≤ n) × (n ≤ longest) × (65 ≤ first) × (first ≤ 90) }
    ensures { result.now ≡ flatten (keywords_with n first) }
{
    let cell = ROW * (n - SHORTEST) + usize::from(first - b'A');
    let from = cell_start(starts, cell);
    let end = cell_start(starts, cell + 1);
    &words[from..end]
}

// A text is among the keywords of its length and first letter, which lie end to end in `group`. By `split_at_checked` and `for` the look at a word takes half
// as many instructions more, and the class of a token misses its bar.
fn among(group: &[u8], text: &[u8]) -> bool
    requires { (shortest ≤ length text.now) × (group.now ≡ flatten (keywords_with (length text.now) (upper (get_or text.now 0 0)))) }
    ensures { result ≡ is_keyword text.now }
{
    let n = text.len();
    let mut rest = group;
    while rest.len() != 0 {
        if spells(&rest[..n], text) {
            return true;
        }
        let next = &rest[n..];
        rest = next;
    }
    false
}

// A bareword is a keyword, whatever its case. The table is lent: a constant is copied by each call of a function that names it.
pub fn keyword_in(words: &[u8], starts: &Starts, text: &[u8]) -> bool
    requires { Lent words.now starts.now }
    ensures { result ≡ is_keyword text.now }
{
    let n = text.len();
    if n < SHORTEST {
        return false;
    }
    if LONGEST < n {
        return false;
    }
    let first = cleared(text[0]);
    match first {
        b'A'..=b'Z' => among(group(words, starts, n, first), text),
        _ => false,
    }
}

// The constants are the table that `keyword_in` asks for: a word that they lack, or a start that is wrong, is refused here.
fn is_keyword(text: &[u8]) -> bool
    ensures { result ≡ is_keyword text.now }
{
    keyword_in(&KEYWORDS, &STARTS, text)
}
