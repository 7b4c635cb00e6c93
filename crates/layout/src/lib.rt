// How parcels lie in the three lists of a sheet: definitions, laws, and the lists' lengths as numbers. There is no function here: `storage`
// looks at the lists, `placing` writes a parcel into them. Nothing above these three names a room, a record or a length, but where lists are
// made: a sheet's own three, and the boxes that a load hands from parcel to parcel.
#![tactic(auto)]

pub mod lists;
