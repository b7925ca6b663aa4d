// What the command asks beside the calls (crate member), exported for C.
#![tactic(auto)]

ghost use Rattle.std.specs.Prelude.{◌≡◌};
ghost use Rattle.stamps.specs.Stamps.{time_read, date_read};
ghost use Rattle.diskette.specs.Images.{kind_of_image};
ghost use Rattle.member.specs.Answers.{slot_told, date_told, time_told};
ghost use Rattle.member.specs.Clusters.{cluster_told, holder_told};

// What stands at a slot of the root. Refused by 40 where the image is not of a kind.
#[unsafe(no_mangle)]
pub extern "C" fn member_slot(img: &[u8], slot: u32) -> u64
    ensures { result ≡ slot_told (kind_of_image img.now) img.now slot }
{
    member::member_slot(img, slot)
}

// Year, month and day of a stored date word. Refused by 43 where they are out of their ranges.
#[unsafe(no_mangle)]
pub extern "C" fn member_date(word: u32) -> u64
    ensures { result ≡ date_told (date_read word) }
{
    member::member_date(word)
}

// Hour, minute and second of a stored time word. Refused by 43 where they are out of their ranges.
#[unsafe(no_mangle)]
pub extern "C" fn member_time(word: u32) -> u64
    ensures { result ≡ time_told (time_read word) }
{
    member::member_time(word)
}

// What the value of a cluster means. Refused by 40 where the image is not of a kind.
#[unsafe(no_mangle)]
pub extern "C" fn member_cluster(img: &[u8], cluster: u32) -> u64
    ensures { result ≡ cluster_told (kind_of_image img.now) img.now cluster }
{
    member::clusters::member_cluster(img, cluster)
}

// The same of an image. Refused by 40 where it is not of a kind.
#[unsafe(no_mangle)]
pub extern "C" fn member_holder(img: &[u8], cluster: u32, slot: u32) -> u64
    ensures { result ≡ holder_told (kind_of_image img.now) img.now cluster slot }
{
    member::clusters::member_holder(img, cluster, slot)
}
