//! The laws, as public functions without a body.
ghost use Rattle.sem_sharding.specs.Shards.{OneShardReplies, HomeAnswers, SplitAnswers, DisjointAnswers, DedupedAnswers, SplitHistories, DisjointHistories, DedupedHistories};
ghost use Rattle.sem_sharding.specs.Keys.{KeysDeal, KeysSplit, TuplesTellShards, LinkedKeysAreEqual, SelectedKeysAreTold, EqualInParts, PartsTell, OneKeyAlone};
ghost use Rattle.sem_sharding.specs.Needed.{SplitIsNeeded, DisjointIsNeeded, EqualKeysAreNeeded, ToldKeysAreNeeded};
ghost use Rattle.sem_sharding.specs.Narrowed.{DomainsAnswerNothing, NarrowedRowsKeep, AdmittedRowsSuffice};
ghost use Rattle.sem_sharding.specs.Slices.{SlicesAnswer, BoundsSlice};
ghost use Rattle.sem_sharding.specs.Checkpoints.{CellsOfShardsMerge, TablesOfShardsMerge};
ghost use Rattle.sem_sharding.specs.Turns.{OneStreamDealt};
ghost use Rattle.sem_sharding.specs.Cases.{KeysAreJudged, RoutingsDiffer, EachPartIsNotEnough};

/// Without DISTINCT the shards of a split answer together, to each row, what one process does.
pub fn split_answers()
    ensures { SplitAnswers }
{}

/// With DISTINCT they do where combinations of one tuple meet in one shard.
pub fn disjoint_answers()
    ensures { DisjointAnswers }
{}

/// A row of a stream that is dealt is answered, in the very order, by the one shard to which it goes.
pub fn one_shard_replies()
    ensures { OneShardReplies }
{}

/// A query of which each stream is sent to a shard is answered by that shard alone.
pub fn home_answers()
    ensures { HomeAnswers }
{}

/// With DISTINCT, where combinations are only seen, the shards' tuples that were not printed before, each once, are what one process answers.
pub fn deduped_answers()
    ensures { DedupedAnswers }
{}

/// Over whole histories the shards of a split answer each tuple as often as one process does, in whatever order each gets its rows.
pub fn split_histories()
    ensures { SplitHistories }
{}

/// With DISTINCT too, where combinations of one tuple meet in one shard.
pub fn disjoint_histories()
    ensures { DisjointHistories }
{}

/// With DISTINCT, where combinations are only seen, of equal tuples the first is what one process answers.
pub fn deduped_histories()
    ensures { DedupedHistories }
{}

/// By keys the rows of a stream with a key are dealt, and those of another are sent to each shard.
pub fn keys_deal()
    ensures { KeysDeal }
{}

/// Keys that are equal in every assignment that counts split a query, wherever each value is put.
pub fn keys_split()
    ensures { KeysSplit }
{}

/// Where tuples tell the keys, they keep combinations of one tuple in one shard.
pub fn tuples_tell_shards()
    ensures { TuplesTellShards }
{}

/// Keys that comparisons `=` join are equal.
pub fn linked_keys_are_equal()
    ensures { LinkedKeysAreEqual }
{}

/// A tuple with a column that comparisons `=` join to a key tells all keys.
pub fn selected_keys_are_told()
    ensures { SelectedKeysAreTold }
{}

/// Columns are equal in every assignment that counts exactly where they are equal in each part.
pub fn equal_in_parts()
    ensures { EqualInParts }
{}

/// A tuple tells the keys where in every two parts it tells one of them.
pub fn parts_tell()
    ensures { PartsTell }
{}

/// One key alone is equal to all keys: each column of each stream of FROM splits, where the other streams are broadcast.
pub fn one_key_alone()
    ensures { OneKeyAlone }
{}

/// Without DISTINCT shards that answer to each row what one process does are those of a split.
pub fn split_is_needed()
    ensures { SplitIsNeeded }
{}

/// With DISTINCT too, and each keeps the combinations of its tuples together.
pub fn disjoint_is_needed()
    ensures { DisjointIsNeeded }
{}

/// Keys that split a query wherever each value is put are equal in every assignment that counts.
pub fn equal_keys_are_needed()
    ensures { EqualKeysAreNeeded }
{}

/// Keys that keep combinations of one tuple in one shard, wherever each value is put, are told by the tuple.
pub fn told_keys_are_needed()
    ensures { ToldKeysAreNeeded }
{}

/// What is answered hangs on no domain.
pub fn domains_answer_nothing()
    ensures { DomainsAnswerNothing }
{}

/// Rows that a key sends to a shard keep to its narrowed domains.
pub fn narrowed_rows_keep()
    ensures { NarrowedRowsKeep }
{}

/// Rows that no part of a shard's narrowed query admits may stay away from it.
pub fn admitted_rows_suffice()
    ensures { AdmittedRowsSuffice }
{}

/// One stream may be dealt out in turn, or in any other way, where all others are broadcast.
pub fn one_stream_dealt()
    ensures { OneStreamDealt }
{}

/// Slices of a query by further comparisons answer together what the query does.
pub fn slices_answer()
    ensures { SlicesAnswer }
{}

/// Bounds that ascend around all values of a column slice a query.
pub fn bounds_slice()
    ensures { BoundsSlice }
{}

/// A cell of one process is that of the shards: merged where its stream is dealt, and the same where it is sent to each.
pub fn cells_of_shards_merge()
    ensures { CellsOfShardsMerge }
{}

/// The table of one process has each tuple of the shards' tables once.
pub fn tables_of_shards_merge()
    ensures { TablesOfShardsMerge }
{}

/// Worked keys, as the rule by the text of a query judges them.
pub fn keys_are_judged()
    ensures { KeysAreJudged }
{}

/// Two worked rows under three routings.
pub fn routings_differ()
    ensures { RoutingsDiffer }
{}

/// A worked query with DISTINCT: that in each part some selected column equals the key is not enough.
pub fn each_part_is_not_enough()
    ensures { EachPartIsNotEnough }
{}
