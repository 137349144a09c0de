//! The faults that the program tells, with what they mean and what usually causes them.

/// What there is to say of a fault: its name, as standard error or a report shows it, what it means, and what usually causes it.
pub type Explanation = (&'static str, &'static str, &'static str);

/// Each fault that the program tells, but for those of files, of records as JSON and of messages.
pub static FAULTS: [(&str, &str, &str); 59] = [
    (
        "BadLine",
        "the line has not the words that a line of this command has",
        "a tab, two spaces, a space at the end, 0x before the digits, an odd number of digits, JSON, base64, a CAR file, a # comment, UTF-16; of verify the root's line left in; of verify-change a line out of its place",
    ),
    (
        "BadKey",
        "the key is not that of a record",
        "no slash or two, at:// before it, a byte-order mark, a space before or behind it, a letter that no record's key has; of tree without --paths more than 1,024 bytes",
    ),
    (
        "BadCid",
        "what follows the last space is no CID of version 1 with codec dag-cbor and hash SHA-256",
        "a CID of version 0 (Qm..), of codec raw (bafkrei..), in upper case, in base58, cut off at its end; a record in place of its CID",
    ),
    (
        "BadScript",
        "the line is no line of a script",
        "two spaces, a worker that there isn't, a number that is none, a WRITE of another form, a record with an odd number of digits",
    ),
    (
        "Clash",
        "two different nodes have one CID",
        "none is known under SHA-256: two nodes with one digest",
    ),
    (
        "NotAMap",
        "the record is not a map",
        "a list, a text or a number as a record: each record of the AT Protocol is one map",
    ),
    (
        "BadRecord(Truncated)",
        "the bytes end inside an item",
        "digits left out at the end",
    ),
    (
        "BadRecord(LongHead)",
        "a head is longer than its number needs",
        "an encoder that isn't strict: DAG-CBOR has the shortest heads alone",
    ),
    (
        "BadRecord(Indefinite)",
        "an item has no definite length",
        "an encoder that streams: DAG-CBOR has definite lengths alone",
    ),
    (
        "BadRecord(BadTag)",
        "a tag other than 42, the one of links",
        "a date or a big number of CBOR",
    ),
    (
        "BadRecord(BadLink)",
        "a link holds no CID",
        "the byte 00 before the CID left out, or a CID as a text",
    ),
    (
        "BadRecord(KeyNotText)",
        "the key of a map is no text",
        "a number as a key of a map",
    ),
    (
        "BadRecord(KeyOrder)",
        "the keys of a map are not distinct and in order",
        "an encoder that keeps the order of JSON: shorter keys come first, and those of one length bytewise",
    ),
    (
        "BadRecord(BadUtf8)",
        "a text is not UTF-8",
        "bytes encoded as a text",
    ),
    (
        "BadRecord(Float)",
        "a floating-point number",
        "1.0 for 1: the AT Protocol has whole numbers alone",
    ),
    (
        "BadRecord(Simple)",
        "a simple value other than false, true and null",
        "undefined of JavaScript",
    ),
    (
        "BadRecord(IntegerRange)",
        "a whole number does not fit 64 bits with a sign",
        "a number of 2^63 or more",
    ),
    (
        "BadRecord(TooDeep)",
        "lists and maps lie more than 64 levels deep",
        "a structure that refers to itself",
    ),
    (
        "BadRecord(Trailing)",
        "bytes follow the value",
        "two values one after the other",
    ),
    (
        "BadRecord(NoMemory)",
        "out of memory",
        "memory was refused while the record was read",
    ),
    (
        "RecordSize",
        "the record is too long",
        "more than 1,048,576 bytes; a blob in a record in place of a link to it",
    ),
    (
        "KeyExists",
        "the key is there already",
        "a create of a key that the repository has, also by an earlier write of the batch: put or update it",
    ),
    (
        "NoSuchKey",
        "there is no such key",
        "an update or a delete of a key that the repository hasn't, also by an earlier write of the batch: put or create it",
    ),
    (
        "WritesFull",
        "the repository takes no more writes",
        "1,048,576 accepted writes: a repository keeps them all",
    ),
    (
        "Collision",
        "two different blocks have one CID",
        "none is known under SHA-256: two blocks with one digest",
    ),
    (
        "StoreFull",
        "the store is full",
        "1,048,576 blocks in one of the sixteen shards",
    ),
    ("EmptyBatch", "the batch is empty", "a batch without writes"),
    (
        "BadDid",
        "the DID is not one",
        "did: left out, an at-identifier or a handle in its place, more than 2,048 bytes",
    ),
    (
        "BadRev",
        "the revision is not a timestamp identifier",
        "a date or a number in place of its 13 letters; in a script a WRITE in the revision's place",
    ),
    (
        "BadSig",
        "the signature is not hexadecimal",
        "base64 or DER in place of 128 hexadecimal digits, 0x before them, an odd number of digits",
    ),
    (
        "NothingToSign",
        "no line puts a record, so there is no commit to sign",
        "an empty input beside --sig: a repository has its first commit by its first record",
    ),
    (
        "RevOrder",
        "the revision is not after the last one",
        "a batch that is applied again, batches out of their order, two workers with one repository",
    ),
    (
        "NoSuchRepository",
        "there is no such repository",
        "a number that isn't below --repos: they begin at 0",
    ),
    (
        "SeqFull",
        "the writer has no number for one more accepted call",
        "2^64 - 1 accepted calls of one worker",
    ),
    (
        "NoMemory",
        "out of memory",
        "memory was refused to a call of a script; the line may be tried again",
    ),
    (
        "BadLength",
        "a CID has 59 characters",
        "verify KEY ROOT in place of verify ROOT KEY; a CID of version 0, one that was cut off, a space behind it",
    ),
    (
        "BadPrefix",
        "a CID begins with the letter b, for base32 in lower case",
        "a CID in base58 (z..), in upper case (B..), or in hexadecimal",
    ),
    (
        "BadLetter",
        "a CID has only the letters a to z and the digits 2 to 7",
        "upper case, the digits 0, 1, 8 and 9, a letter that was changed",
    ),
    (
        "BadBits",
        "the last letter of a CID stands for bits that belong to no byte",
        "the last letter was changed",
    ),
    (
        "NotThisProfile",
        "the CID isn't of version 1 with codec dag-cbor and hash SHA-256",
        "a CID of codec raw, as a blob's (bafkrei..), or of another hash",
    ),
    (
        "KeyLength",
        "a key has no bytes or more than 1,024",
        "an empty word for a key",
    ),
    (
        "BlockMissing",
        "a block that is needed is not given",
        "a wrong root; the CID of a commit in place of its data; a node that was damaged, which has another CID then; a node that was lost",
    ),
    (
        "BadNode",
        "a block that is needed is no node",
        "the CID of a record or of a commit in place of a tree's root",
    ),
    (
        "BadNode(NotNode)",
        "the bytes are not those of a node",
        "the CID of a record or of a commit in place of a tree's root",
    ),
    (
        "BadNode(BadPrefix)",
        "a prefix is not what a key has in common with the one before",
        "an encoder of nodes that doesn't shorten keys as the AT Protocol asks",
    ),
    (
        "BadNode(KeyOrder)",
        "the keys do not ascend",
        "an encoder of nodes that doesn't sort its keys bytewise",
    ),
    (
        "BadNode(KeyLength)",
        "a key has no bytes or more than 1,024",
        "nodes that somebody made up",
    ),
    (
        "TooDeep",
        "a link stands below layer 0",
        "nodes that somebody made up: no tree is as deep",
    ),
    (
        "NotTree",
        "the blocks are no tree with the root that they are read from",
        "nodes that somebody made up: each is one by itself, and together they are no tree of the AT Protocol",
    ),
    (
        "OtherValue",
        "the key of the change has another value",
        "BEFORE and AFTER of a change swapped; a change of another commit; a record's CID where - stands for none",
    ),
    (
        "OtherRoot",
        "the changes lead to another root",
        "a change left out or one too many; another BEFORE; the roots swapped",
    ),
    (
        "BadBefore",
        "the root before a change is no CID",
        "what stands in parentheses says why; a word that is no CID, or the two roots left out",
    ),
    (
        "BadAfter",
        "the root after a change is no CID",
        "what stands in parentheses says why; a word that is no CID, or one root left out",
    ),
    (
        "OtherBefore",
        "the text of the change has another root before it",
        "a change of another commit; the roots swapped; a commit's CID in place of its prevData",
    ),
    (
        "OtherAfter",
        "the text of the change has another root after it",
        "a change of another commit; a commit's CID in place of its data",
    ),
    (
        "Uneven",
        "what the host's repositories and its table of blocks say of each other does not agree",
        "none is known: a fault of this program",
    ),
    (
        "no memory",
        "memory was refused",
        "more input than there is memory: all of it is read before a line is judged",
    ),
    (
        "read failed",
        "the input can't be read",
        "a folder as standard input; a device that failed; of run also a system without random numbers",
    ),
    (
        "write failed",
        "the output can't be written",
        "a reader of the pipe that has gone, as head; a full disk",
    ),
];

/// The faults of files: why one can't be opened, why a CAR file is no export of a repository, and why two aren't compared; and those of
/// records as JSON.
pub static FAULTS_OF_FILES: [(&str, &str, &str); 27] = [
    (
        "Car(BadHeader)",
        "the file does not begin as a CAR with one root",
        "a file that isn't a CAR, as lines of text or a page that says why there is no file; a CAR of version 2, one with several roots, or whose root isn't a commit's CID",
    ),
    (
        "Car(BadLength)",
        "the length of a section is not a number in its shortest form",
        "bytes behind the last section; a file that was changed on its way",
    ),
    (
        "Car(Truncated)",
        "the file ends within a section",
        "a download that was broken off",
    ),
    (
        "Car(BadCid)",
        "a section does not begin with a CID of a block",
        "a blob's section, whose CID has the codec raw: an export has records alone",
    ),
    (
        "Misnamed",
        "the CID of a section is not that of its block",
        "a file that was changed on its way; a program that computes CIDs of other bytes",
    ),
    (
        "NoCommit",
        "the root is not in the file",
        "a slice of an export, as one since a revision, or the blocks of a message",
    ),
    (
        "Commit(NotACommit)",
        "the bytes are not those of a signed commit",
        "a file of car, whose commit isn't signed; a commit of version 2 of the repository format",
    ),
    (
        "Commit(BadDid)",
        "the DID is not one",
        "a handle in its place",
    ),
    (
        "Commit(BadRev)",
        "the revision is not a timestamp identifier",
        "a date or a number in place of its 13 letters",
    ),
    (
        "NotTheTree",
        "the file does not have a whole tree under its commit",
        "a slice of an export, which lacks nodes; a tree that another program made in another form",
    ),
    (
        "NoRecord",
        "the record is not in the file",
        "a slice of an export; what stands before the name is the record's place, from 0, among the records in the order of their keys",
    ),
    (
        "not found",
        "there is no file of this name",
        "a name that is misspelt, or that is meant from another folder; two words where one was meant, as of a name with a space",
    ),
    (
        "permission denied",
        "the file may not be read",
        "a file of another user",
    ),
    (
        "is a directory",
        "the name is that of a directory",
        "the folder of the file in place of the file",
    ),
    (
        "open failed",
        "the file can't be opened",
        "too many files are open; a device that failed",
    ),
    (
        "NoJsonForm",
        "the record has no form as JSON",
        "a whole number of 2^53 or more, a key $link or $bytes, a CID of version 0; records without --json writes it in hexadecimal",
    ),
    (
        "BadForm",
        "the word for the form of files is none",
        "another word than car, listing and records behind --form",
    ),
    (
        "NoRecords",
        "the file lists CIDs and has no records",
        "changes --records or --blocks of a listing: give the export or lines of records",
    ),
    (
        "BadJson(NotJson)",
        "the text is not JSON",
        "a comma too many, a quote left out, JSON over several lines, a record in hexadecimal; a text that isn't UTF-8",
    ),
    (
        "BadJson(DoubledKey)",
        "a key stands twice in an object",
        "two objects put together by hand; what stands behind the name is the way to the key",
    ),
    (
        "BadJson(Float)",
        "a number has a point or an exponent",
        "1.0 for 1, or 1e3 for 1000: the AT Protocol has whole numbers alone",
    ),
    (
        "BadJson(IntegerRange)",
        "a whole number is outside the range that each reader of JSON holds",
        "a number of 2^53 or more, as an identifier of 64 bits: write it as a text",
    ),
    (
        "BadJson(BadLink)",
        "a link holds no CID of version 1 in base 32",
        "a CID of version 0 (Qm..), in upper case or in base58, one that was cut off; a link that is no text",
    ),
    (
        "BadJson(BadBytes)",
        "bytes are not in base 64",
        "the alphabet of URLs, with - and _; hexadecimal; bytes that are no text",
    ),
    (
        "BadJson(BadDollar)",
        "an object with $link or $bytes has other keys",
        "a $type beside a $link: the link stands in an object of its own",
    ),
    (
        "BadJson(TooDeep)",
        "lists and maps lie more than 64 levels deep",
        "a structure that refers to itself",
    ),
    (
        "BadJson(NotAMap)",
        "the value is not a map",
        "a list, a text or a number as a record; a link or bytes in a record's place",
    ),
];

/// The faults of messages of the event stream that no other command has.
pub static FAULTS_OF_MESSAGES: [(&str, &str, &str); 20] = [
    (
        "MessageSize",
        "the message is too long",
        "more than 5,000,000 bytes; several messages of which one has no end, so that all that is left is one",
    ),
    (
        "NotCommit",
        "no message #commit",
        "a frame of another kind, as #sync, #identity, #account or an error; a file that isn't of messages, as a CAR file; messages in hexadecimal",
    ),
    (
        "Cbor",
        "the message is not DAG-CBOR",
        "what stands in parentheses says why: a file that was cut off or changed on its way; an encoder that isn't strict",
    ),
    (
        "BadField",
        "a field is missing or of another kind",
        "the field stands in parentheses; a message from before sync 1.1, which has no prevData; a first batch whose prevData was left out",
    ),
    ("Rebase", "a rebase", "a message from before sync 1.1"),
    (
        "TooBig",
        "the message does not hold all",
        "a message from before sync 1.1, whose blocks are to be fetched",
    ),
    (
        "TooManyOps",
        "too many operations",
        "a batch that changes more than 200 keys: of it a #sync tells",
    ),
    (
        "BlocksSize",
        "the blocks have too many bytes",
        "a batch whose commit, nodes and records have more than 2,000,000 bytes",
    ),
    (
        "BadSince",
        "the revision before is no timestamp identifier",
        "a date or a number in place of its 13 letters",
    ),
    (
        "BadTime",
        "the time is none",
        "a date without a time, or a time without its zone: 2026-11-30T12:00:00Z",
    ),
    (
        "BadOp",
        "the operation is none",
        "a key without a collection; an update that leaves the record that there was; a create with a prev",
    ),
    (
        "DoubledPath",
        "the operation has the path of another",
        "two writes of one key in a batch, which the server told one by one",
    ),
    (
        "OtherPrevious",
        "the repository had another root before",
        "a message that is missing before this one, or one that is given twice; a commit's CID in place of its data",
    ),
    (
        "NotTheRoot",
        "the root of the blocks is not the commit",
        "blocks of another message",
    ),
    (
        "CommitMissing",
        "the commit is not among the blocks",
        "blocks that were left out",
    ),
    (
        "OtherDid",
        "the commit is of another repository",
        "blocks of another repository's message",
    ),
    (
        "OtherRev",
        "the commit has another revision",
        "blocks of another message of this repository",
    ),
    (
        "RecordMissing",
        "the record of the operation is missing",
        "blocks that were left out to make the message smaller",
    ),
    (
        "NoBatch",
        "the repository has no batch",
        "no writes behind the empty line, or no empty line before them",
    ),
    (
        "BadSeq",
        "the number is none of the stream",
        "--seq of 2^63 or more",
    ),
];
