// The four kinds of diskette: their numbers, where the parts of a volume stand, and of which kind an image is.
#![tactic(auto)]

ghost use Rattle.std.specs.Prelude.{◌≡◌, ℕ, ◌≤◌, ◌<◌, length};
ghost use Rattle.diskette.specs.Kinds.{named};
ghost use Rattle.diskette.specs.Aids.Usable.{Usable};
ghost use Rattle.diskette.specs.Places.{first_data, cluster_bytes, clusters, last_cluster, root_entries, copy_two, root_at, slot_at};
ghost use Rattle.chains.specs.Sizes.{clusters_for};
ghost use Rattle.diskette.specs.Images.{kind_of_image, kind_of_area};

// Five numbers say all of a kind: the rest is computed from them.
#[derive(Clone, Copy)]
pub struct Kind {
    pub byte: u8,
    pub sectors: usize,
    pub fat: usize,
    pub root: usize,
    pub per: usize,
}

impl Kind {
    pub const FE: u8 = 0xFE;

    pub const FF: u8 = 0xFF;

    pub const FC: u8 = 0xFC;

    pub const FD: u8 = 0xFD;

    // The kind that a byte names.
    #[tactic(auto, unfolding(crate::specs::Kinds::named))]
    pub fn named(byte: u8) -> Option<Kind>
        ensures { result ≡ named byte }
    {
        match byte {
            Kind::FE => Some(Kind {
                byte,
                sectors: 320,
                fat: 1,
                root: 4,
                per: 1,
            }),
            Kind::FF => Some(Kind {
                byte,
                sectors: 640,
                fat: 1,
                root: 7,
                per: 2,
            }),
            Kind::FC => Some(Kind {
                byte,
                sectors: 360,
                fat: 2,
                root: 4,
                per: 1,
            }),
            Kind::FD => Some(Kind {
                byte,
                sectors: 720,
                fat: 2,
                root: 7,
                per: 2,
            }),
            _ => None,
        }
    }

    // The first sector of the data.
    pub fn first_data(self) -> usize
        requires { Usable self }
        ensures { result ≡ first_data self }
    {
        1 + 2 * self.fat + self.root
    }

    // The bytes of a cluster.
    pub fn cluster_bytes(self) -> usize
        requires { Usable self }
        ensures { result ≡ cluster_bytes self }
    {
        512 * self.per
    }

    // How many clusters there are.
    #[tactic(auto, unfolding(crate::specs::Places::clusters))]
    pub fn clusters(self) -> usize
        requires { Usable self }
        ensures { result ≡ clusters self }
    {
        (self.sectors - self.first_data()) / self.per
    }

    // The highest cluster's number; the lowest is 2.
    pub fn last_cluster(self) -> usize
        requires { Usable self }
        ensures { result ≡ last_cluster self }
    {
        self.clusters() + 1
    }

    // How many slots the root directory has.
    pub fn root_entries(self) -> usize
        requires { Usable self }
        ensures { result ≡ root_entries self }
    {
        16 * self.root
    }

    // The byte at which copy 2 of the table starts. (Copy 1 starts at byte 512 of every kind.)
    pub fn copy_two(self) -> usize
        requires { Usable self }
        ensures { result ≡ copy_two self }
    {
        512 * (1 + self.fat)
    }

    // The byte at which the root starts.
    pub fn root_at(self) -> usize
        requires { Usable self }
        ensures { result ≡ root_at self }
    {
        512 * (1 + 2 * self.fat)
    }

    // The byte at which the 32 bytes of a root slot start.
    pub fn slot_at(self, slot: usize) -> usize
        requires usable { Usable self }
        requires slot_bound { slot ≤ root_entries self }
        ensures { result ≡ slot_at self slot }
    {
        self.root_at() + 32 * slot
    }

    // How many clusters a file of that size needs.
    pub fn needed_for(self, size: u32) -> usize
        requires { Usable self }
        ensures { result ≡ clusters_for (cluster_bytes self) size }
    {
        (size as usize).div_ceil(self.cluster_bytes())
    }
}

// The kind of which an image is: by its length and its byte 512.
#[tactic(auto, using(crate::proofs::Laws::Images::image_short), unfolding(crate::specs::Images::kind_of_image))]
pub fn kind_of_image(img: &[u8]) -> Option<Kind>
    ensures { result ≡ kind_of_image img.now }
{
    let byte = *img.get(512)?;
    Kind::named(byte).filter(|k| img.len() == 512 * k.sectors)
}

// The kind of which a system area is: by its byte 512, where it reaches the first data sector.
#[tactic(auto, using(crate::proofs::Laws::Images::area_short), unfolding(crate::specs::Images::kind_of_area))]
pub fn kind_of_area(area: &[u8]) -> Option<Kind>
    ensures { result ≡ kind_of_area area.now }
{
    let byte = *area.get(512)?;
    Kind::named(byte).filter(|k| 512 * k.first_data() <= area.len())
}
