//! The laws of the store, as calls that do nothing.
ghost use Rattle.bin_store.specs.Laws.{PathsAreStored, PathsAreInjective, PathsAreApart, EmptyStoreIsGood, NoStoreIsGood, GoodByItsPart, EditKeepsGood, GoodForMore, StoredBinIsWhole, GoodBinsAreStored, BinsStayApart, InterfacesStayApart, TornIsAbsent};

/// Every path of the store begins with `.cm/`.
pub fn paths_are_stored()
    ensures { PathsAreStored }
{}

/// The paths of the store tell units and hashes apart, and those of one kind are none of another.
pub fn paths_are_apart()
    ensures injective { PathsAreInjective }
    ensures apart { PathsAreApart }
{}

/// The store of no files is good, and so is a folder of files none of which is the store's: a first build begins there.
pub fn a_first_store_is_good()
    ensures empty { EmptyStoreIsGood }
    ensures none { NoStoreIsGood }
{}

/// A store is good or not by its files below `.cm/` alone: whatever is done to other paths keeps it good.
pub fn the_project_may_change()
    ensures part { GoodByItsPart }
    ensures edits { EditKeepsGood }
{}

/// A store that is good for some interfaces is good for more.
pub fn more_may_be_known()
    ensures { GoodForMore }
{}

/// What is stored for a unit is exactly the binfile that stands whole at its place. In a good store it is good, and its
/// interface is stored, of a known text.
pub fn stored_bins_are_whole()
    ensures exact { StoredBinIsWhole }
    ensures good { GoodBinsAreStored }
{}

/// A binfile that is put, removed or left torn changes no other unit's and no interface; an interface changes no
/// binfile and no other interface. A torn binfile counts as absent.
pub fn puts_stay_apart()
    ensures bins { BinsStayApart }
    ensures interfaces { InterfacesStayApart }
    ensures torn { TornIsAbsent }
{}
