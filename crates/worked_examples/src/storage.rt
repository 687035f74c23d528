//! Areas that are obtained and released, bytes, registers and names.
ghost use Rattle.worked_examples.specs.Storage.{ALongerAreaBelowWins, ANameStandsForAnAddress, AStoreGoesOverPages};
ghost use Rattle.worked_examples.specs.Storage.{AnAddressIsStoredAsAFullword, AnAnswerOf4MakesNoSubpool, AnAreaOnAPage};
ghost use Rattle.worked_examples.specs.Storage.{AnAreaReleasedInParts, BothSidesOfTheLine, BytesLeaveWithTheirPage};
ghost use Rattle.worked_examples.specs.Storage.{ConditionalReleases, EndsOfTheRegions, OneByteTakesADoubleword};
ghost use Rattle.worked_examples.specs.Storage.{ReleasesThatFreeNothing, TwoSubpoolsNeverShareAPage, VariableLengths};
ghost use Rattle.worked_examples.specs.Storage.{WantOfStorage, WholeReleasesAndNumbers};

/// One byte takes a doubleword, at the first address of the region.
pub fn one_byte_takes_a_doubleword()
    ensures { OneByteTakesADoubleword }
{}

/// Two areas of two subpools are in two pages.
pub fn two_subpools_never_share_a_page()
    ensures { TwoSubpoolsNeverShareAPage }
{}

/// An area is released in parts, also all but the last doubleword of a page; what is free can't be released.
pub fn an_area_released_in_parts()
    ensures { AnAreaReleasedInParts }
{}

/// Running out of storage has the code of the form; a conditional form returns 4, and defines no name.
pub fn want_of_storage()
    ensures { WantOfStorage }
{}

/// An obtain that returns 4 makes no subpool, so that a release from that number finds none.
pub fn an_answer_of_4_makes_no_subpool()
    ensures { AnAnswerOf4MakesNoSubpool }
{}

/// An area on a page boundary doesn't fit into the subpool's page, which stays in use.
pub fn an_area_on_a_page()
    ensures { AnAreaOnAPage }
{}

/// A variable request gets the longest area between its bounds that has a place, and its length in register 0. The
/// least length may not be above the greatest, nor be zero.
pub fn variable_lengths()
    ensures { VariableLengths }
{}

/// A longer area below the line wins over a shorter one above it; a fixed length goes above it if it fits.
pub fn a_longer_area_below_wins()
    ensures { ALongerAreaBelowWins }
{}

/// Releases that are refused or return 4, in the order of their causes.
pub fn releases_that_free_nothing()
    ensures { ReleasesThatFreeNothing }
{}

/// A conditional release returns 4, and frees nothing, if a doubleword of the area is free storage or lies in an
/// unassigned page, if one lies in a page of another subpool or outside the region, or if the subpool isn't seen; in
/// all other cases it is what it is without COND=YES.
pub fn conditional_releases()
    ensures { ConditionalReleases }
{}

/// Storage on either side of the line is above it if there is room, and so is that of a caller above it.
pub fn both_sides_of_the_line()
    ensures { BothSidesOfTheLine }
{}

/// An area doesn't go from one region to the other, nor past the end of one, nor does a length wrap.
pub fn ends_of_the_regions()
    ensures { EndsOfTheRegions }
{}

/// Whole releases, which only their owner can make, and never of subpool 0, and which leave another owner's subpool of
/// the number; and numbers that aren't those of private storage.
pub fn whole_releases_and_numbers()
    ensures { WholeReleasesAndNumbers }
{}

/// A page that is emptied loses its bytes; as a page of another subpool it holds zeros, and the steps back give it its
/// byte again.
pub fn bytes_leave_with_their_page()
    ensures { BytesLeaveWithTheirPage }
{}

/// The address is in register 1 and in the register that is named, and is stored as a fullword, its most significant
/// byte first. Bytes of which one isn't in an assigned page are neither stored nor read.
pub fn an_address_is_stored_as_a_fullword()
    ensures { AnAddressIsStoredAsAFullword }
{}

/// A store goes over the border of two pages, whichever subpools they are of, as long as both are assigned; one that
/// passes the last address, or goes over into a page that isn't assigned, stores nothing.
pub fn a_store_goes_over_pages()
    ensures { AStoreGoesOverPages }
{}

/// An accepted obtain gives its address to its name, and the next one gives the name another; an answer 4 defines none,
/// and a step back removes a definition.
pub fn a_name_stands_for_an_address()
    ensures { ANameStandsForAnAddress }
{}
