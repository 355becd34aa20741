//! The words of rules.

ghost use Rattle.std.specs.Prelude.{◌≡◌, map, slice_get};
ghost use Rattle.cgns_check.specs.Words.{word_of, word_or_none};

/// The words that findings print, by the numbers of their rules, of which there is none of number 0.
const RULE_WORDS: [&[u8]; 41] = [
    b"",
    b"link",
    b"place",
    b"version",
    b"version-data",
    b"base-data",
    b"base-dimensions",
    b"zone-data",
    b"index-dimension",
    b"vertex-size",
    b"cell-size",
    b"boundary-size",
    b"zone-type",
    b"zone-types",
    b"not-empty",
    b"array-data",
    b"coordinate-type",
    b"coordinate-size",
    b"rind-name",
    b"rind-data",
    b"location",
    b"field-type",
    b"field-size",
    b"section-data",
    b"section-numbers",
    b"range",
    b"range-numbers",
    b"connectivity",
    b"connectivity-size",
    b"connectivity-nodes",
    b"sections-overlap",
    b"bc-type",
    b"bc-points",
    b"bc-family",
    b"small-node",
    b"start-offset",
    b"offset-size",
    b"offset-numbers",
    b"mixed-pieces",
    b"piece-nodes",
    b"face-numbers",
];

/// The word of a rule by its number; none where there is no such rule.
#[tactic(auto, unfolding(sids_rules::specs::Rules::check_rules, sids_rules::specs::OffsetRules::offset_rules))]
pub fn rule_word(number: u8) -> &'static [u8]
    ensures { result.now ≡ word_of number }
{
    word_in(&RULE_WORDS, number)
}

fn word_in<'a>(words: &[&'a [u8]], number: u8) -> &'a [u8]
    ensures { result.now
        ≡ word_or_none (slice_get (map (λ word. word.now) words.now) number) }
{
    match words.get(usize::from(number)) {
        Some(word) => word,
        None => &[],
    }
}
